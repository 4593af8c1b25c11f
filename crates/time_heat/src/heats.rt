//! How operations heat ions and traps. Heats are whole thousandths.

ghost use Rattle.std.specs.Prelude.{◌≡◌, ◌+◌, ◌^◌, ◌<◌};
ghost use Rattle.time_heat.specs.Heat.{entered_heat, merged_heat, moved_heat, rotated_heat, split_ion_heat, split_trap_heat};

/// The heat of an ion that is split off a chain of so many ions, and of the trap that keeps the
/// others. The ion takes its share of the chain's heat, rounded down, and the split heats both.
pub fn split_heat(heat: u64, ions: u8) -> (u64, u64)
    requires some_ions { 0 < ions }
    requires small { heat < 2 ^ 62 }
    ensures ion { result.0 ≡ split_ion_heat heat ions }
    ensures trap { result.1 ≡ split_trap_heat heat ions }
    ensures total { result.0 + result.1 ≡ heat + 200 }
{
    let share = heat / u64::from(ions);
    (share + 100, heat - share + 100)
}

/// The heat of a trap after an ion of this heat is merged into its chain.
pub fn merge_heat(trap: u64, ion: u64) -> u64
    requires small_trap { trap < 2 ^ 62 }
    requires small_ion { ion < 2 ^ 62 }
    ensures { result ≡ merged_heat trap ion }
{
    trap + ion + 100
}

/// The heat of a trap after two neighbours of its chain are exchanged.
pub fn rot_heat(trap: u64) -> u64
    requires { trap < 2 ^ 62 }
    ensures { result ≡ rotated_heat trap }
{
    trap + 200
}

/// The heat of an ion after a move along a segment.
pub fn move_heat(ion: u64) -> u64
    requires { ion < 2 ^ 62 }
    ensures { result ≡ moved_heat ion }
{
    ion + 10
}

/// The heat of an ion after it enters a junction. Leaving one changes nothing.
pub fn enter_heat(ion: u64) -> u64
    requires { ion < 2 ^ 62 }
    ensures { result ≡ entered_heat ion }
{
    ion + 50
}
