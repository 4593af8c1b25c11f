//! What holds of the definitions. Each function does nothing: its contract is the law.

ghost use Rattle.std.specs.Prelude.{◌≡◌, ◌↔◌, ℕ, List, length};
ghost use Rattle.std.specs.List.{list_any, range_with_len};
ghost use Rattle.qccd_circuit.specs.Exchanges.{Reaches};
ghost use Rattle.qccd_circuit.specs.Item.{ItemData};
ghost use Rattle.qccd_circuit.specs.Operands.{operands_of, uses};
ghost use Rattle.qccd_circuit.specs.Order.{SameOrder};
ghost use Rattle.qccd_circuit.specs.Sharing.{shares};

/// A list is in the same order exactly where exchanging neighbours that do not share makes it of the
/// circuit's own order.
pub fn reached_by_exchanges()
    ensures { (items : List ItemData) (v : List ℕ) → SameOrder items v ↔ Reaches items (range_with_len 0 (length items)) v }
{}

/// Two items share exactly where they have an operand in common.
pub fn sharing_by_operands()
    ensures { (a b : ItemData) → shares a b ≡ list_any (uses b) (operands_of a) }
{}
