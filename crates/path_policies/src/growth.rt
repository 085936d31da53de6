//! How many valid policies certificates can make.
ghost use Rattle.std.specs.Prelude.{List};
ghost use Rattle.path_policies.specs.Growth.{AreAtMost, PolicyStep, levels_behind, most_nodes};

/// A law: after any certificates no level has more nodes than one plus the policies that they name
/// and map, counted together. So mappings can't double what there is, as they can in the tree of
/// RFC 5280, where 8 certificates with 2 policies and 4 mappings each make 511 nodes.
#[tactic(auto, using(crate::proofs::Growing::grows_slowly_is))]
pub fn grows_slowly()
    ensures { (steps : List PolicyStep) → AreAtMost (most_nodes steps) (levels_behind steps) }
{}
