//! Laws of maps, proved of the definitions.
ghost use Rattle.map_rows.specs.Stretches.{GapsAreInside, GapsAreTheRest};

/// The gaps that stretches leave between two addresses: an address there is in a gap exactly where it is in no stretch.
pub fn gaps_are_the_rest()
    ensures rest { GapsAreTheRest }
    ensures inside { GapsAreInside }
{}
