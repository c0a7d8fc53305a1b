//! The names of nodes.
ghost use Rattle.std.specs.Prelude.{◌≤◌, length};
ghost use Rattle.tk_problem.specs.declared.limits.TheConstants.{CITY_LIMIT};
ghost use Rattle.tk_picture.specs.declared.node_names.TheConstants.{NAME_LIMIT};

/// Maximum number of bytes of the name of a node.
pub const NAME_LIMIT: usize = 1024;

/// The name of a node: at most 1,024 bytes.
#[derive(Drop)]
pub struct NodeName {
    pub text: Vec<u8>,
    ghost short: { length text.items ≤ NAME_LIMIT },
}

/// The names of the nodes of a problem, at most 100,000; none if a page has no names.
#[derive(Clone, Copy)]
pub struct NodeNames<'a> {
    /// The name of node k + 1 is at index k.
    pub list: &'a [NodeName],
    ghost few: { length list.now ≤ CITY_LIMIT },
}
