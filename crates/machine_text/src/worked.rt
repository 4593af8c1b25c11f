//! Worked examples over the definitions, each a function whose contract is the fact.

ghost use Rattle.std.specs.Prelude.{codes};
ghost use Rattle.machine_text.specs.declared.fault.Part.TheVariants as part;
ghost use Rattle.machine_text.specs.declared.fault.TextFault.TheVariants as fault;
ghost use Rattle.machine_text.specs.Checks.{spot};
ghost use Rattle.machine_text.specs.Machine.{IsMachineOf, IsRefusalOf};
ghost use Rattle.machine_text.specs.Fast.{fast};
ghost use Rattle.qccd_machine.specs.declared.fault.MachineFault.TheVariants.{BadEnd, NoTrap};

/// What is wrong with a document as a whole.
pub fn documents()
    ensures trap { IsRefusalOf (codes "")
        (fault.MissingField (spot part.Trap 0)) }
    ensures name { IsRefusalOf (codes "name = 1\n")
        (fault.UnknownField (spot part.Top 0)) }
    ensures negative { IsRefusalOf (codes "junctions = -1\n")
        (fault.WrongValue (spot part.Junctions 0)) }
    ensures real { IsRefusalOf (codes "junctions = 1.0\n")
        (fault.WrongValue (spot part.Junctions 0)) }
    ensures trap_table { IsRefusalOf (codes "[trap]\ncapacity = 4\n")
        (fault.WrongValue (spot part.Trap 0)) }
    ensures no_table { IsRefusalOf (codes "trap = [{ capacity = 4 }, 4]\n")
        (fault.WrongValue (spot part.Trap 0)) }
{}

/// What is wrong with a trap.
pub fn traps()
    ensures capacity { IsRefusalOf (codes "[[trap]]\ncapacity = 4\n[[trap]]\n")
        (fault.MissingField (spot part.Capacity 1)) }
    ensures text { IsRefusalOf (codes "[[trap]]\ncapacity = \"4\"\n")
        (fault.WrongValue (spot part.Capacity 0)) }
    ensures negative { IsRefusalOf (codes "[[trap]]\ncapacity = -4\n")
        (fault.WrongValue (spot part.Capacity 0)) }
    ensures name { IsRefusalOf (codes "trap = [{ capacity = 4, name = 1 }]\n")
        (fault.UnknownField (spot part.Trap 0)) }
    ensures name_first { IsRefusalOf (codes "trap = [{ name = 1 }]\n")
        (fault.UnknownField (spot part.Trap 0)) }
    ensures one_by_one { IsRefusalOf (codes "trap = [{}, { name = 1 }]\n")
        (fault.MissingField (spot part.Capacity 0)) }
{}

/// What is wrong with a segment. Its place is looked for among all that a text may name.
pub fn segments()
    ensures missing_a { IsRefusalOf (codes "trap = []\nsegment = [{}]\n")
        (fault.MissingField (spot part.EndA 0)) }
    ensures missing_b { IsRefusalOf (codes "trap = []\nsegment = [{ a = \"T0.right\" }]\n")
        (fault.MissingField (spot part.EndB 0)) }
    ensures zero { IsRefusalOf (codes "trap = []\nsegment = [{ a = \"T00.right\" }]\n")
        (fault.WrongValue (spot part.EndA 0)) }
    ensures far { IsRefusalOf (codes "trap = []\nsegment = [{ a = \"J255\", b = \"J256\" }]\n")
        (fault.WrongValue (spot part.EndB 0)) }
    ensures upper { IsRefusalOf (codes "trap = []\nsegment = [{ a = \"T0.Left\" }]\n")
        (fault.WrongValue (spot part.EndA 0)) }
    ensures bare { IsRefusalOf (codes "trap = []\nsegment = [{ a = \"T0\" }]\n")
        (fault.WrongValue (spot part.EndA 0)) }
    ensures table { IsRefusalOf (codes "trap = []\n[segment]\n")
        (fault.WrongValue (spot part.Segment 0)) }
{}

/// What is wrong with times.
pub fn times()
    ensures array { IsRefusalOf (codes "trap = []\n[[time]]\n")
        (fault.WrongValue (spot part.Time 0)) }
    ensures field_of_the_code { IsRefusalOf (codes "trap = []\n[time]\nshift = 5\n")
        (fault.UnknownField (spot part.Time 0)) }
    ensures move_ { IsRefusalOf (codes "trap = []\n[time]\nmove = -1\n")
        (fault.WrongValue (spot (part.TimeField 2) 0)) }
    ensures large { IsRefusalOf (codes "trap = []\n[time]\ngate2 = 4294967296\n")
        (fault.WrongValue (spot (part.TimeField 10) 0)) }
    ensures in_order { IsRefusalOf (codes "trap = []\n[time]\nbetween = -1\nsplit = -1\n")
        (fault.WrongValue (spot (part.TimeField 0) 0)) }
{}

/// The first of two faults is told.
pub fn first_of_two()
    ensures name_then_junctions { IsRefusalOf (codes "name = 1\njunctions = -1\n")
        (fault.UnknownField (spot part.Top 0)) }
    ensures junctions_then_trap { IsRefusalOf (codes "junctions = -1\n")
        (fault.WrongValue (spot part.Junctions 0)) }
    ensures trap_then_segment { IsRefusalOf (codes "segment = 1\n")
        (fault.MissingField (spot part.Trap 0)) }
    ensures capacity_then_segment { IsRefusalOf (codes "segment = 1\n[[trap]]\n")
        (fault.MissingField (spot part.Capacity 0)) }
    ensures segment_then_time { IsRefusalOf (codes "segment = 1\ntime = 1\ntrap = []\n")
        (fault.WrongValue (spot part.Segment 0)) }
    ensures b_then_time { IsRefusalOf (codes "segment = [{ a = \"J0\" }]\ntime = 1\ntrap = []\n")
        (fault.MissingField (spot part.EndB 0)) }
    ensures name_then_time { IsRefusalOf (codes "trap = []\n[time]\nx = 1\nsplit = -1\n")
        (fault.UnknownField (spot part.Time 0)) }
    ensures time_then_parts { IsRefusalOf (codes "trap = []\ntime = 1\n")
        (fault.WrongValue (spot part.Time 0)) }
{}

/// No table stands for a text that is no TOML.
pub fn no_toml()
    ensures cut_off { IsRefusalOf (codes "[[trap\n") fault.NotToml }
    ensures twice { IsRefusalOf (codes "junctions = 1\njunctions = 1\n") fault.NotToml }
    ensures past_64_bits { IsRefusalOf (codes "junctions = 9223372036854775808\n") fault.NotToml }
{}

/// That there is no trap is told of the parts, behind all that may be wrong with the table.
pub fn no_trap()
    ensures { IsRefusalOf (codes "trap = []\n") (fault.Machine NoTrap) }
{}

/// A segment that leads from the one trap to a second one that is not there.
pub fn second_trap_missing()
    ensures { IsRefusalOf (codes "[[trap]]\ncapacity = 3\n[[segment]]\na = \"T0.right\"\nb = \"T1.left\"\n")
        (fault.Machine (BadEnd (record { 0 = 0 }))) }
{}

/// A machine whose gates take no time.
pub fn fast_gates()
    ensures { IsMachineOf (codes "[[trap]]\ncapacity = 4\n[time]\ngate1 = 0\ngate2 = 0\n") fast }
{}
