//! Worked examples of what the definitions say. Each function does nothing: its contract is the example.

ghost use Rattle.std.specs.Prelude.{◌≡◌, [], ◌∷◌, Some, None, codes};
ghost use Rattle.qccd_base.specs.declared.names.Mode.TheVariants.{IonSwap, GateSwap};
ghost use Rattle.qccd_machine.specs.declared.place.Preset.TheVariants.{L6, G2x3, Single};
ghost use Rattle.qccd_words.specs.Words.{AskedExec, AskedRehearse, AskedTidy, AskedRun, OfPreset, OfFile, machine_of, number_named, options_of, request_of};

/// A run in one trap of at most two ions, with the usual workers and mode, and a number with a
/// leading zero in place of the two, which asks for nothing.
pub fn run_in_one_trap()
    ensures two { request_of (codes "run" ∷ codes "@single:2" ∷ codes "a" ∷ [])
        ≡ Some (AskedRun (OfPreset Single 2) (codes "a") 4 IonSwap) }
    ensures by_gates { request_of (codes "run" ∷ codes "@single:2" ∷ codes "a" ∷ codes "--swap" ∷ codes "gate" ∷ [])
        ≡ Some (AskedRun (OfPreset Single 2) (codes "a") 4 GateSwap) }
    ensures no_value { request_of (codes "run" ∷ codes "@single:2" ∷ codes "a" ∷ codes "--swap" ∷ []) ≡ None }
    ensures leading_zero { request_of (codes "run" ∷ codes "@single:02" ∷ codes "a" ∷ []) ≡ None }
{}

/// The options of a run: one alone, and both in either order; and words that are none: an option twice, what is no
/// number of workers, and an option with no value. What stands in the place of the circuit is its name.
pub fn options_of_a_run()
    ensures workers { options_of (codes "--workers" ∷ codes "1" ∷ []) None None ≡ Some (1, IonSwap) }
    ensures workers_first { options_of (codes "--workers" ∷ codes "16" ∷ codes "--swap" ∷ codes "gate" ∷ []) None None ≡ Some (16, GateSwap) }
    ensures mode_first { options_of (codes "--swap" ∷ codes "gate" ∷ codes "--workers" ∷ codes "16" ∷ []) None None ≡ Some (16, GateSwap) }
    ensures twice { options_of (codes "--workers" ∷ codes "4" ∷ codes "--workers" ∷ codes "4" ∷ []) None None ≡ None }
    ensures no_worker { options_of (codes "--workers" ∷ codes "0" ∷ []) None None ≡ None }
    ensures too_many { options_of (codes "--workers" ∷ codes "17" ∷ []) None None ≡ None }
    ensures leading_zero { options_of (codes "--workers" ∷ codes "04" ∷ []) None None ≡ None }
    ensures no_value { options_of (codes "--workers" ∷ []) None None ≡ None }
    ensures circuit { request_of (codes "run" ∷ codes "@single" ∷ codes "--workers" ∷ [])
        ≡ Some (AskedRun (OfPreset Single 16) (codes "--workers") 4 IonSwap) }
{}

/// Which of the options the other commands take.
pub fn options_of_the_others()
    ensures exec { request_of (codes "exec" ∷ codes "@single" ∷ codes "p" ∷ codes "--workers" ∷ codes "2" ∷ [])
        ≡ Some (AskedExec (OfPreset Single 16) (codes "p") 2) }
    ensures exec_swap { request_of (codes "exec" ∷ codes "@single" ∷ codes "p" ∷ codes "--swap" ∷ codes "ion" ∷ []) ≡ None }
    ensures compile_workers { request_of (codes "compile" ∷ codes "@single" ∷ codes "a" ∷ codes "--workers" ∷ codes "4" ∷ []) ≡ None }
    ensures check_workers { request_of (codes "check" ∷ codes "@single" ∷ codes "a" ∷ codes "p" ∷ codes "--workers" ∷ codes "4" ∷ []) ≡ None }
{}

/// What words name as a machine.
pub fn machines_named()
    ensures line { machine_of (codes "@L6") ≡ Some (OfPreset L6 16) }
    ensures two_rows { machine_of (codes "@G2x3:8") ≡ Some (OfPreset G2x3 8) }
    ensures other_name { machine_of (codes "@L7") ≡ None }
    ensures at_alone { machine_of (codes "@") ≡ None }
    ensures file { machine_of (codes "m.toml") ≡ Some (OfFile (codes "m.toml")) }
    ensures no_at { machine_of (codes "L6") ≡ Some (OfFile (codes "L6")) }
    ensures empty { machine_of [] ≡ Some (OfFile []) }
{}

/// A rehearsal in one trap of at most four ions, with the usual workers, and words that ask for none: no qubit,
/// a part too many, and a part too few.
pub fn rehearsal_in_one_trap()
    ensures four { request_of (codes "rehearse" ∷ codes "1" ∷ codes "3" ∷ codes "4" ∷ codes "@single:4" ∷ [])
        ≡ Some (AskedRehearse 1 3 4 (OfPreset Single 4) 4) }
    ensures no_qubit { request_of (codes "rehearse" ∷ codes "1" ∷ codes "0" ∷ codes "4" ∷ codes "@L6" ∷ []) ≡ None }
    ensures too_many { request_of (codes "rehearse" ∷ codes "1" ∷ codes "3" ∷ codes "4" ∷ codes "@L6" ∷ codes "a" ∷ []) ≡ None }
    ensures workers { request_of (codes "rehearse" ∷ codes "1" ∷ codes "3" ∷ codes "4" ∷ codes "@single:4" ∷ codes "--workers" ∷ codes "1" ∷ [])
        ≡ Some (AskedRehearse 1 3 4 (OfPreset Single 4) 1) }
    ensures too_few { request_of (codes "rehearse" ∷ codes "1" ∷ codes "3" ∷ codes "4" ∷ []) ≡ None }
{}

/// A program is tidied on a machine, with no option and no further word.
pub fn tidying_on_a_line()
    ensures whole { request_of (codes "tidy" ∷ codes "@L6:5" ∷ codes "p" ∷ []) ≡ Some (AskedTidy (OfPreset L6 5) (codes "p")) }
    ensures further { request_of (codes "tidy" ∷ codes "@L6:5" ∷ codes "p" ∷ codes "q" ∷ []) ≡ None }
    ensures no_program { request_of (codes "tidy" ∷ codes "@L6:5" ∷ []) ≡ None }
    ensures no_machine { request_of (codes "tidy" ∷ codes "@L7" ∷ codes "p" ∷ []) ≡ None }
{}

/// What words name as a number in a range.
pub fn numbers_named()
    ensures least { number_named 0 2147483647 (codes "0") ≡ Some 0 }
    ensures greatest { number_named 0 2147483647 (codes "2147483647") ≡ Some 2147483647 }
    ensures greater { number_named 0 2147483647 (codes "2147483648") ≡ None }
    ensures less { number_named 1 256 (codes "0") ≡ None }
    ensures leading_zero { number_named 1 256 (codes "07") ≡ None }
    ensures sign { number_named 1 256 (codes "+7") ≡ None }
    ensures letter { number_named 1 256 (codes "7a") ≡ None }
    ensures empty { number_named 0 65536 [] ≡ None }
{}
