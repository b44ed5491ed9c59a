//! Which operations of which kinds are built.
ghost use Rattle.std.specs.Prelude.{◌≡◌};
ghost use Rattle.kind_table.specs.Kinds.{is_kind_built, is_built};

use finger_apps::is_end_op;
use lazy_rec::{Kind, Op};

/// Whether the kind is built with all its operations.
pub fn is_kind_built(kind: Kind) -> bool
    ensures { result ≡ is_kind_built kind }
{
    matches!(kind, Kind::Stream | Kind::Bankq | Kind::Rtq | Kind::Heap)
}

/// Whether the operation of the kind is built: of sequences those at the ends. An operation that the kind doesn't have isn't.
pub fn is_built(kind: Kind, op: Op) -> bool
    ensures { result ≡ is_built kind op }
{
    match kind {
        Kind::Seq => is_end_op(op) || matches!(op, Op::New(_)),
        _ => is_kind_built(kind) && (kind.has(op) || matches!(op, Op::New(_))),
    }
}
