//! Reading the structure block, token by token, into nodes.

ghost use Rattle.std.specs.Prelude.{◌≡◌, ◌++◌, ◌∷◌, [], ℕ, List, length, IfOk};
ghost use Rattle.fdt_tree.specs.Devicetree.{begin_node, root_tokens, bare};
ghost use Rattle.fdt_tree.specs.NodeViews.{branch, property_data, root_of};
ghost use Rattle.refusal.specs.Answer.{Answers, with_front};
ghost use Rattle.fdt_tree.specs.inside.TokenViews.{as_token, FitsPlace};
ghost use Rattle.fdt_tree.specs.Scanning.{structure_at, start, after};
ghost use Rattle.fdt_tree.specs.inside.OpenNodes.{so_far, place_of, added, with_property, with_child};

use crate::node::{Name, Node, Property};
use crate::reading::lexing::{Token, token_of};
use crate::reading::place::Place;
use crate::reading::strings::Strings;
use fdt_header::FdtFault;
use std::alloc::{AllocError, Global};

/// The nodes that are open: the innermost, and those around it. Around the root is an empty node;
/// the root becomes its only child.
#[derive(Drop)]
pub struct OpenNodes {
    pub outer: Vec<Node>,
    pub current: Node,
}

/// A node of this name, with nothing in it.
pub fn new_node(alloc: Global, name: &[u8]) -> Result<Node, AllocError>
    ensures { IfOk result (λ n. (strings : List ℕ) → branch strings n ≡ bare name.now) }
{
    Ok(Node {
        name: Vec::from_slice(alloc, name)?,
        properties: Vec::new(alloc),
        children: Vec::new(alloc),
    })
}

/// The node with a property after its other properties.
fn with_property(node: Node, property: Property) -> Result<Node, AllocError>
    ensures { IfOk result (λ n. (strings : List ℕ) → branch strings n
        ≡ with_property (branch strings node) (property_data strings property)) }
{
    let Node {
        name,
        mut properties,
        children,
    } = node;
    properties.push(property)?;
    Ok(Node {
        name,
        properties,
        children,
    })
}

/// The node with a child after its other children.
fn with_child(node: Node, child: Node) -> Result<Node, AllocError>
    ensures { IfOk result (λ n. (strings : List ℕ) → branch strings n
        ≡ with_child (branch strings node) (branch strings child)) }
{
    let Node {
        name,
        properties,
        mut children,
    } = node;
    children.push(child)?;
    Ok(Node {
        name,
        properties,
        children,
    })
}

fn no_node_open(alloc: Global) -> OpenNodes
    ensures tokens { (strings : List ℕ) → so_far strings result ≡ begin_node [] ∷ [] }
    ensures place { (strings : List ℕ) → place_of strings result ≡ start }
{
    OpenNodes {
        outer: Vec::new(alloc),
        current: Node {
            name: Vec::new(alloc),
            properties: Vec::new(alloc),
            children: Vec::new(alloc),
        },
    }
}

/// The open nodes after one more token.
fn take(alloc: Global, nodes: OpenNodes, token: Token) -> Result<OpenNodes, AllocError>
    requires { (strings : List ℕ) → FitsPlace (place_of strings nodes) token }
    ensures tokens { IfOk result (λ p. (strings : List ℕ) → so_far strings p
        ≡ so_far strings nodes ++ added (as_token strings token.entry)) }
    ensures place { IfOk result (λ p. (strings : List ℕ) → place_of strings p
        ≡ after (place_of strings nodes) (as_token strings token.entry)) }
{
    let OpenNodes { mut outer, current } = nodes;
    match token {
        Token::Begin(name) => {
            let node = new_node(alloc, name)?;
            outer.push(current)?;
            Ok(OpenNodes {
                outer,
                current: node,
            })
        }
        Token::Property { start, len, value } => {
            let property = Property {
                name: Name::Shared { start, len },
                value: Vec::from_slice(alloc, value)?,
            };
            let current = with_property(current, property)?;
            Ok(OpenNodes { outer, current })
        }
        Token::EndNode => match outer.pop() {
            None => Ok(OpenNodes { outer, current }),
            Some(parent) => {
                let current = with_child(parent, current)?;
                Ok(OpenNodes { outer, current })
            }
        },
        Token::Nop | Token::Finish => Ok(OpenNodes { outer, current }),
    }
}

/// The place of the next token.
fn place_in(nodes: &OpenNodes) -> Place
    ensures { (strings : List ℕ) → result ≡ place_of strings nodes.now }
{
    Place {
        depth: nodes.outer.len(),
        late: 0 < nodes.current.children.len(),
    }
}

/// The open nodes at END: the outermost alone, with the root in it.
fn run(alloc: Global, strings: &Strings, block: &[u8]) -> Result<OpenNodes, FdtFault>
    ensures outermost { IfOk result (λ p. length p.outer.items ≡ 0) }
    ensures exact { Answers FdtFault.NoMemory (λ p. so_far strings.now.bytes.items p) result
        (with_front (begin_node [] ∷ []) (structure_at strings.now.bytes.items block.now)) }
{
    let mut nodes = no_node_open(alloc);
    let mut rest = block;
    for _ in 0..block.len() {
        let place = place_in(&nodes);
        let (token, after) = token_of(strings, place, rest)?;
        if let Token::Finish = token {
            return Ok(nodes);
        }
        nodes = take(alloc, nodes, token)?;
        rest = after;
    }
    Err(FdtFault::BadToken)
}

/// The root that a structure block holds.
pub fn root_in(alloc: Global, strings: &Strings, block: &[u8]) -> Result<Node, FdtFault>
    ensures exact { Answers FdtFault.NoMemory (λ n. root_tokens (root_of strings.now.bytes.items n))
        result (structure_at strings.now.bytes.items block.now) }
    ensures unnamed { IfOk result (λ n. (branch strings.now.bytes.items n).name ≡ []) }
{
    let OpenNodes { outer: _, current } = run(alloc, strings, block)?;
    let Node {
        name: _,
        properties: _,
        mut children,
    } = current;
    match children.pop() {
        Some(root) => Ok(root),
        None => Err(FdtFault::BadToken),
    }
}
