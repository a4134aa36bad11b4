ghost use Rattle.std.specs.Prelude.{◌≡◌, ◌<◌, IfSome, length, option_copied, slice_get};
ghost use Rattle.ql_typing.specs.Lookups.{txn_place, type_place};
ghost use Rattle.ql_typing.specs.Operations.{all_ops, op_kinds};

use ql_lang::{OpDecl, TxnDecl, TypeDecl};

/// The operation with a number.
pub(crate) fn find_op(types: &[TypeDecl], number: usize) -> Option<&OpDecl>
    ensures { option_copied result ≡ slice_get (all_ops types.now) number }
{
    let mut left = number;
    for declared in types {
        let ops = declared.ops.items();
        if left < ops.len() {
            return Some(&ops[left]);
        }
        left -= ops.len();
    }
    None
}

/// The number of the type of an operation.
pub(crate) fn find_kind(types: &[TypeDecl], number: usize) -> Option<usize>
    ensures kind { result ≡ slice_get (op_kinds types.now) number }
    ensures within { IfSome result (λ k. k < length types.now) }
{
    let mut left = number;
    for k in 0..types.len() {
        let ops = types[k].ops.items();
        if left < ops.len() {
            return Some(k);
        }
        left -= ops.len();
    }
    None
}

/// The index of the type with a name.
pub(crate) fn find_type(types: &[TypeDecl], w: &[u8]) -> Option<usize>
    ensures place { result ≡ type_place types.now w.now }
    ensures within { IfSome result (λ k. k < length types.now) }
{
    types
        .iter()
        .position(|declared| w == declared.name.word.bytes())
}

/// The index of the transaction with a name.
pub(crate) fn find_txn(txns: &[TxnDecl], w: &[u8]) -> Option<usize>
    ensures place { result ≡ txn_place txns.now w.now }
    ensures within { IfSome result (λ k. k < length txns.now) }
{
    txns.iter()
        .position(|declared| w == declared.name.word.bytes())
}
