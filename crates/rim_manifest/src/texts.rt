//! Reading texts: the paths of files, and the names of items.
ghost use Rattle.std.specs.Prelude.{◌≡◌, IfOk, map, string_bytes};
ghost use Rattle.toml.specs.Data.{get};
ghost use Rattle.toml.specs.View.{view};
ghost use Rattle.rim_rules.specs.Values.{text_in};

use rim_rules::value::text;
use std::alloc::{AllocError, Global};
use toml::Value;

/// Reads the text at a key of each table.
pub fn read_texts(alloc: Global, tables: &[Value], key: &str) -> Result<Vec<String>, AllocError>
    ensures { IfOk result (λ v. map string_bytes v.items
        ≡ map (λ t. text_in (get key.now (view t))) tables.now) }
{
    let mut texts = Vec::with_capacity(alloc, tables.len())?;
    for table in tables {
        texts.push(String::from_str(alloc, text(table, key))?)?;
    }
    Ok(texts)
}
