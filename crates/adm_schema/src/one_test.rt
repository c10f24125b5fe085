// Whether a table has the one test that it has one row: that its first column is 1.
ghost use Rattle.std.specs.Prelude.{◌≡◌, ◌↔◌, ℕ, suc, [], ◌∷◌, IsTrue, pos};
ghost use Rattle.sqlite.specs.Term.{op2, col, lit};
ghost use Rattle.sqlite.specs.declared.types.Value.TheVariants.{Int};
ghost use Rattle.sqlite_schema.specs.Code.{term_to};
ghost use Rattle.sqlite_sql.specs.declared.ops.BinaryOp.TheVariants.{Compare};
ghost use Rattle.sqlite_sql.specs.declared.ops.CompareOp.TheVariants.{Eq};
ghost use Rattle.sqlite.specs.Collation.TheVariants.{Binary};

use sqlite_schema::code::{Op, Terms};
use sqlite_sql::ops::{BinaryOp, CompareOp};
use sqlite_value::keys::Collation;
use sqlite_value::value::Value;

/// Whether the one term is that the first column is 1.
pub(crate) fn is_one_test(terms: &Terms) -> bool
    ensures { IsTrue result ↔ (terms.now ≡ op2 (Compare Eq Binary) (col 1 0) (lit (Int (pos 1))) ∷ []) }
{
    let nodes = terms.nodes.as_slice();
    let roots = terms.roots.as_slice();
    if nodes.len() < 2 {
        return false;
    }
    if roots.len() != 1 {
        return false;
    }
    is_test_at(nodes, roots[0])
}

fn is_test_at(nodes: &[Op], at: usize) -> bool
    ensures { (depth : ℕ) → IsTrue result ↔ (term_to nodes.now (suc (suc depth)) at ≡ op2 (Compare Eq Binary) (col 1 0) (lit (Int (pos 1)))) }
{
    match nodes.get(at) {
        Some(Op::Binary(op, first, second)) => is_test_of(nodes, op, *first, *second),
        _ => false,
    }
}

fn is_test_of(nodes: &[Op], op: &BinaryOp, first: usize, second: usize) -> bool
    ensures { (depth : ℕ) → IsTrue result ↔ (op2 op.now (term_to nodes.now (suc depth) first) (term_to nodes.now (suc depth) second) ≡ op2 (Compare Eq Binary) (col 1 0) (lit (Int (pos 1)))) }
{
    let equality = is_equality(op);
    let column = is_first_column(nodes, first);
    let one = is_one(nodes, second);
    equality && column && one
}

fn is_equality(op: &BinaryOp) -> bool
    ensures { IsTrue result ↔ (op.now ≡ Compare Eq Binary) }
{
    *op == BinaryOp::Compare(CompareOp::Eq, Collation::Binary)
}

fn is_first_column(nodes: &[Op], at: usize) -> bool
    ensures { (depth : ℕ) → IsTrue result ↔ (term_to nodes.now (suc depth) at ≡ col 1 0) }
{
    match nodes.get(at) {
        Some(Op::Column(1, 0)) => true,
        _ => false,
    }
}

fn is_one(nodes: &[Op], at: usize) -> bool
    ensures { (depth : ℕ) → IsTrue result ↔ (term_to nodes.now (suc depth) at ≡ lit (Int (pos 1))) }
{
    match nodes.get(at) {
        Some(Op::Literal(Value::Int(1))) => true,
        _ => false,
    }
}
