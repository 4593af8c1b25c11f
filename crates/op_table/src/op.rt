//! An operation with the resources that it touches.

ghost use Rattle.std.specs.Prelude.{◌≡◌, IfOk, OnOk};
ghost use Rattle.op_table.specs.Touch.{touches};
ghost use Rattle.op_table.specs.Op.{IsOp, KeepsItemRule};

use crate::kinds::OpKind;
use crate::touched::Touched;
use qccd_base::{NoMemory, Res};
use std::alloc::Global;
use std::marker::Model;
use std::sync::Arc;

/// An operation with the resources that it touches, in their order. Its copies share one place in memory, so
/// a program of many equal operations takes eight bytes for each.
#[derive(Debug, Drop)]
pub struct Op {
    whole: Arc<Whole>,
}

// What the copies of an operation share.
#[derive(Debug, Drop)]
struct Whole {
    kind: OpKind,
    touched: Touched,
}

impl Model for Whole {
    ghost use Rattle.std.specs.Prelude.{◌≡◌};
    ghost use Rattle.op_table.specs.declared.kinds.OpKind.{OpKind};
    ghost use Rattle.op_table.specs.Op.{IsOp, KeepsItemRule};
    ghost use Rattle.op_table.specs.Touch.{touches};
    ghost use Rattle.op_table.specs.Touched.{listed};

    ghost Value = { OpKind };

    ghost view = { λ a. a.kind };

    ghost invariant = { λ a. IsOp a.kind × KeepsItemRule a.kind × (listed a.touched ≡ touches a.kind) };
}

impl Model for Op {
    ghost use Rattle.std.specs.Arc.{arc_value};
    ghost use Rattle.op_table.specs.declared.kinds.OpKind.{OpKind};

    ghost Value = { OpKind };

    ghost view = { λ a. arc_value a.whole };
}

impl Whole {
    fn kind(&self) -> &OpKind
        ensures value { result.now ≡ self.now }
        ensures is_op { IsOp self.now }
        ensures item_rule { KeepsItemRule self.now }
    {
        &self.kind
    }

    fn touches(&self) -> &[Res]
        ensures { result.now ≡ touches self.now }
    {
        self.touched.as_slice()
    }
}

impl Op {
    /// The operation of this kind, or that memory ran out.
    // The caller mostly knows the kind, and inlined the operation is built where it goes.
    #[inline(always)]
    pub fn of(alloc: Global, kind: OpKind) -> Result<Op, NoMemory>
        requires { IsOp kind }
        ensures { IfOk result (λ op. op ≡ kind) }
    {
        has_item_rule(&kind);
        let touched = Touched::by(alloc, &kind)?;
        let whole = Arc::new(alloc, Whole { kind, touched })?;
        Ok(Op { whole })
    }

    /// The same operation, with which it shares its memory, or that no more may share it (which is told as
    /// want of memory).
    #[inline(always)]
    pub fn copy(&self) -> Result<Op, NoMemory>
        ensures { IfOk result (λ op. op ≡ self.now) }
    {
        let whole = Arc::try_clone(&self.whole)?;
        Ok(Op { whole })
    }

    /// What it does.
    pub fn kind(&self) -> &OpKind
        ensures value { result.now ≡ self.now }
        ensures is_op { IsOp self.now }
        ensures item_rule { KeepsItemRule self.now }
    {
        self.whole.kind()
    }

    /// The resources that it touches, ascending.
    pub fn touches(&self) -> &[Res]
        ensures { result.now ≡ touches self.now }
    {
        self.whole.touches()
    }
}

// An operation's item fits, as the contract of its kind tells.
fn has_item_rule(kind: &OpKind)
    ensures { KeepsItemRule kind.now }
{
    match kind {
        OpKind::Item { item, .. } | OpKind::Fence { item, .. } => {
            let _kind = item.kind();
        }
        _ => {}
    }
}
