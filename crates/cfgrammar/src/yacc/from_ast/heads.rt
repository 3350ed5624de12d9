//! The rule of each production.

ghost use Rattle.std.specs.Prelude.{◌≡◌, ℕ, suc, ◌<◌, length, get_or, set, fold, All, IfOk};
ghost use Rattle.cfg_read.specs.WellFormedAst.{IsWellFormedAst};
ghost use Rattle.cfgrammar.specs.FromAst.{file_head};

use cfg_read::yacc::ast::GrammarAST;
use std::alloc::{AllocError, Global};

/// Notes the rule at this index for each of its productions.
fn note_all(heads: &mut Vec<usize>, index: usize, pidxs: &[usize])
    requires { All (λ p. p < length heads.old.items) pidxs.now }
    ensures { heads.new.items ≡ fold (λ hs p. set hs p index) heads.old.items pidxs.now }
{
    'pidxs: for pidx in pidxs {
        heads[*pidx] = index;
    }
}

/// For each production the index of its rule among those of the file.
pub(crate) fn heads(alloc: Global, ast: &GrammarAST) -> Result<Vec<usize>, AllocError>
    requires { IsWellFormedAst ast.now }
    ensures count { IfOk result (λ v. length v.items ≡ length ast.now.productions) }
    ensures each { IfOk result (λ v. (p : ℕ) → p < length ast.now.productions → suc (get_or v.items p 0) ≡ file_head ast.now p) }
{
    let mut heads = vec![in alloc; 0usize; ast.prods().len()]?;
    'rules: for index in 0..ast.rules().len() {
        note_all(&mut heads, index, &ast.rules()[index].pidxs);
    }
    Ok(heads)
}
