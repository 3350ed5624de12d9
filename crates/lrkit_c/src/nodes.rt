//! Nodes of a tree as C sees them.

ghost use Rattle.std.specs.Prelude.{◌≡◌, ◌≤◌, ◌++◌, length, drop};
ghost use Rattle.parse_trees.specs.FlatTrees.{piece_of, pieces_of};
ghost use Rattle.lrkit_c.specs.Nodes.{itself, node_of, nodes_of, symbols_of};

use cfg_base::index::IndexStorage;
use cfg_base::symbol::PIdx;
use cfg_numbered::yacc::NumberedGrammar;
use lrlex::DefaultLexeme;
use lrpar::flat::FlatNode;

/// A node of a tree, which comes right behind its children.
#[repr(C)]
#[derive(Clone, Copy)]
pub struct LrkitNode {
    /// 0 for a lexeme, 1 for a production.
    pub kind: u32,
    /// The token's number, or the production's.
    pub number: u32,
    /// The byte offset at which it begins.
    pub start: usize,
    /// The byte offset at which it ends.
    pub end: usize,
    /// How many children it has.
    pub children: usize,
}

/// A node of the kit's tree.
pub type WordNode = FlatNode<u32, DefaultLexeme<u32>>;

/// Returns how many symbols a production has; none where the grammar lacks it.
fn length_of(grm: &NumberedGrammar<u32>, pidx: PIdx<u32>) -> usize
    ensures { result ≡ symbols_of grm.now.grammar pidx.0 }
{
    if !grm.has_prod(pidx) {
        return 0;
    }
    grm.prod_len(pidx).0.to_usize()
}

/// Returns a node as C sees it.
pub fn shown_node(grm: &NumberedGrammar<u32>, node: WordNode) -> LrkitNode
    ensures { result ≡ node_of grm.now.grammar (piece_of itself node) }
{
    match node {
        FlatNode::Term { lexeme } => LrkitNode {
            kind: 0,
            number: lexeme.tok_id,
            start: lexeme.span.start(),
            end: lexeme.span.end(),
            children: 0,
        },
        FlatNode::Nonterm {
            pidx,
            span,
            below: _,
        } => LrkitNode {
            kind: 1,
            number: pidx.0,
            start: span.start(),
            end: span.end(),
            children: length_of(grm, pidx),
        },
    }
}

/// Writes nodes at the front of the room, which is large enough.
pub fn put_nodes(grm: &NumberedGrammar<u32>, from: &[WordNode], nodes: &mut [LrkitNode])
    requires { length from.now ≤ length nodes.old }
    ensures { nodes.new ≡ nodes_of grm.now.grammar (pieces_of itself from.now) ++ drop (length from.now) nodes.old }
{
    'nodes: for index in 0..from.len() {
        nodes[index] = shown_node(grm, from[index]);
    }
}
