//! What the times of a machine are called.

ghost use Rattle.std.specs.Prelude.{◌≡◌};
ghost use Rattle.qccd_machine.specs.TimeName.{time_name_of};

/// What the fields of `Times` are called in a machine's file and in messages, in their order. Each has
/// its own name, but for `shift`, which is called `move`.
pub const TIME_NAMES: [&str; 12] = [
    "split", "merge", "move", "cross2", "cross3", "cross4", "rot", "gate1", "measure", "reset",
    "gate2", "between",
];

/// What the field of `Times` at this place, counted from 0, is called. Past the last field it is
/// empty. It takes no memory.
pub fn time_name(field: u8) -> &'static str
    ensures { result.now ≡ time_name_of field }
{
    match TIME_NAMES.get(usize::from(field)) {
        Some(name) => name,
        None => "",
    }
}
