//! Worked examples over the definitions, each a function whose contract is the fact.

ghost use Rattle.std.specs.Prelude.{◌≡◌, ◌∷◌, []};
ghost use Rattle.op_table.specs.Act.{trap_content};
ghost use Rattle.op_table.specs.declared.contents.Content.TheVariants as holds;
ghost use Rattle.op_cells.specs.Example.{hot_trap, two_entries};
ghost use Rattle.op_cells.specs.Rested.{cool_times, fresh_cells, rested_data};

/// A trap that is free at 670 is cooled from then to 1070. It has its ions and its log, and heat 0.
pub fn cooled_trap()
    ensures times { cool_times hot_trap ≡ record { start = 670; finish = 1070 } }
    ensures left { rested_data hot_trap ≡ record { content = trap_content two_entries 0; clock = 1070; log = record { op = 6; start = 590; finish = 670 } ∷ [] } }
{}

/// Two cells that are made of contents and clocks, with room for three entries and for none.
pub fn made_cells()
    ensures { fresh_cells ((trap_content two_entries 343, 670) ∷ (holds.Bit, 80) ∷ []) (3 ∷ 0 ∷ []) ≡
        record { content = trap_content two_entries 343; free_at = 670; log = record { entries = []; spare = 3 } }
        ∷ record { content = holds.Bit; free_at = 80; log = record { entries = []; spare = 0 } }
        ∷ [] }
{}
