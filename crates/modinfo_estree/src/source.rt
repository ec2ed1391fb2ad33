use crate::offsets::Offsets;
use crate::tokens::Tokens;
use deno_graph_json::ObjectReader;

/// Marks readers of the tree of a JavaScript parser.
#[derive(Debug)]
pub struct Estree;

/// The members of a node.
pub type NodeMembers<'v> = ObjectReader<'v, Estree>;

/// A text, and where its tokens are.
#[derive(Drop)]
pub struct Source<'t> {
    pub text: &'t str,
    pub offsets: Offsets<'t>,
    pub tokens: Tokens,
}
