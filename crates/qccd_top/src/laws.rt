//! What is due for words and files, where a shelf tells what it holds. Each function does nothing: its
//! contract is the law.

ghost use Rattle.std.specs.Prelude.{◌≡◌, ◌≢◌, ◌<◌, ◌≤◌, ◌*◌, ℕ, List, All, Some, None, length};
ghost use Rattle.qccd_base.specs.declared.names.Mode.{Mode};
ghost use Rattle.qccd_base.specs.declared.names.Mode.TheVariants.{IonSwap};
ghost use Rattle.qccd_io.specs.Shelf.{Holding};
ghost use Rattle.qccd_circuit.specs.Circuit.{CircuitData};
ghost use Rattle.qccd_machine.specs.declared.place.Preset.{Preset};
ghost use Rattle.qccd_machine.specs.Machine.{MachineData, slots_of, worst_of};
ghost use Rattle.qccd_machine.specs.Preset.{preset_of};
ghost use Rattle.machine_text.specs.declared.fault.TextFault.{TextFault};
ghost use Rattle.machine_text.specs.Machine.{IsMachineOf, IsRefusalOf};
ghost use Rattle.qasm_reader.specs.declared.fault.QasmKind.{QasmKind};
ghost use Rattle.qasm_reader.specs.Reading.{IsCircuitOf, IsRefusedAt};
ghost use Rattle.qccd_program.specs.Implements.{Implements};
ghost use Rattle.qccd_program.specs.Legal.{IsLegalProgram};
ghost use Rattle.qccd_program.specs.Program.{ProgramData};
ghost use Rattle.compiler.specs.Chosen.{IsTooLong};
ghost use Rattle.op_text.specs.declared.kind.AsmKind.{AsmKind};
ghost use Rattle.transport_asm.specs.Lines.{refused};
ghost use Rattle.transport_asm.specs.Texts as texts;
ghost use Rattle.loader.specs.declared.faults.LoadFault.{LoadFault};
ghost use Rattle.loader.specs.Refusal.{load_refusal, on_machine};
ghost use Rattle.meaning_check.specs.Verdict.{IsVerdict};
ghost use Rattle.meaning_check.specs.declared.verdict.Verdict.{Verdict};
ghost use Rattle.meaning_check.specs.declared.verdict.Verdict.TheVariants.{Same};
ghost use Rattle.qccd_words.specs.Words.{Asked, AskedMachine, OfPreset, OfFile, AskedRun, AskedCompile, AskedExec, AskedCheck, AskedRehearse, AskedTidy, HasCapacity, request_of};
ghost use Rattle.rehearsal.specs.Generated.{generated};
ghost use Rattle.qccd_messages.specs.Cause.{Cause, Read, TooLarge, status_of};
ghost use Rattle.qccd_top.specs.declared.limits.TheConstants.{CIRCUIT_LIMIT, MACHINE_LIMIT, PROGRAM_LIMIT};
ghost use Rattle.qccd_top.specs.Stage.{Gives, Refuses};
ghost use Rattle.qccd_top.specs.Stages.{FileIn, MachineIn, CircuitIn, Compiled, ProgramIn};
ghost use Rattle.qccd_top.specs.Means.{TextOf, TextFor, HoldsCircuit, word_of, circuit_file, program_file, compiling_mode};
ghost use Rattle.qccd_top.specs.Done.{IsDue};

/// One status at most is due.
pub fn one_due()
    ensures { (words : List (List ℕ)) (held : Holding) (first second : ℕ)
        → IsDue words held first → IsDue words held second → first ≡ second }
{}

/// How many bytes a file has at most: of a machine, of a circuit, of a program.
pub fn limits()
    ensures machine { MACHINE_LIMIT ≡ 1048576 }
    ensures circuit { CIRCUIT_LIMIT ≡ 16777216 }
    ensures program { PROGRAM_LIMIT ≡ 268435456 }
{}

/// Some status is due, whatever the words and the files.
pub fn some_due()
    ensures { (words : List (List ℕ)) (held : Holding) → (status : ℕ) × IsDue words held status }
{}

/// Words and files have one text at most.
pub fn one_text()
    ensures { (words : List (List ℕ)) (held : Holding) (first second : List ℕ)
        → TextFor (Some held) words (Gives first) → TextFor (Some held) words (Gives second) → first ≡ second }
{}

/// Words that have no reading: 2, whatever is held.
pub fn no_reading()
    ensures { (words : List (List ℕ)) (held : Holding) → request_of words ≡ None → IsDue words held 2 }
{}

/// Whatever the command: no machine, and the status is that of the cause for which there is none.
pub fn refused_for_the_machine()
    ensures { (words : List (List ℕ)) (held : Holding) (asked : Asked) (cause : Cause)
        → request_of words ≡ Some asked → MachineIn (Some held) (word_of asked) (Refuses cause)
        → IsDue words held (status_of cause) }
{}

/// Whatever the command: a machine but no circuit in the file that is named.
pub fn refused_for_the_circuit()
    ensures { (words : List (List ℕ)) (held : Holding) (asked : Asked) (m : MachineData) (circuit : List ℕ) (cause : Cause)
        → request_of words ≡ Some asked → MachineIn (Some held) (word_of asked) (Gives m)
        → circuit_file asked ≡ Some circuit → CircuitIn (Some held) circuit (Refuses cause)
        → IsDue words held (status_of cause) }
{}

/// Whatever the command: a machine and, where it is named, a circuit, but no program in the file that is named.
pub fn refused_for_the_program()
    ensures { (words : List (List ℕ)) (held : Holding) (asked : Asked) (m : MachineData) (program : List ℕ) (cause : Cause)
        → request_of words ≡ Some asked → MachineIn (Some held) (word_of asked) (Gives m) → HoldsCircuit held asked
        → program_file asked ≡ Some program → ProgramIn (Some held) m program (Refuses cause)
        → IsDue words held (status_of cause) }
{}

/// A machine and a circuit, but no program of it: of the circuit of a file, and of one that is generated.
pub fn refused_for_the_compiler()
    ensures read { (words : List (List ℕ)) (held : Holding) (asked : Asked) (m : MachineData) (circuit : List ℕ) (c : CircuitData) (mode : Mode) (cause : Cause)
        → request_of words ≡ Some asked → MachineIn (Some held) (word_of asked) (Gives m)
        → circuit_file asked ≡ Some circuit → compiling_mode asked ≡ Some mode → CircuitIn (Some held) circuit (Gives c)
        → Compiled c m mode (Refuses cause)
        → IsDue words held (status_of cause) }
    ensures made { (words : List (List ℕ)) (held : Holding) (number qubits items : ℕ) (machine : AskedMachine) (workers : ℕ) (m : MachineData) (cause : Cause)
        → request_of words ≡ Some (AskedRehearse number qubits items machine workers) → MachineIn (Some held) machine (Gives m)
        → Compiled (generated number qubits items) m IonSwap (Refuses cause)
        → IsDue words held (status_of cause) }
{}

/// A file is refused as it is not held, or as it has more bytes than the limit.
pub fn refused_files()
    ensures missing { (held : Holding) (name : List ℕ) (limit : ℕ) → held.file name ≡ None → FileIn (Some held) name limit (Refuses (Read name)) }
    ensures large { (held : Holding) (name text : List ℕ) (limit : ℕ) → held.file name ≡ Some text → limit < length text
        → FileIn (Some held) name limit (Refuses (TooLarge name limit)) }
    ensures machine { (held : Holding) (name : List ℕ) (cause : Cause) → FileIn (Some held) name MACHINE_LIMIT (Refuses cause)
        → MachineIn (Some held) (OfFile name) (Refuses cause) }
    ensures circuit { (held : Holding) (name : List ℕ) (cause : Cause) → FileIn (Some held) name CIRCUIT_LIMIT (Refuses cause)
        → CircuitIn (Some held) name (Refuses cause) }
    ensures program { (held : Holding) (m : MachineData) (name : List ℕ) (cause : Cause) → FileIn (Some held) name PROGRAM_LIMIT (Refuses cause)
        → ProgramIn (Some held) m name (Refuses cause) }
{}

/// The machine's file is not held: 3, whatever the circuit's file.
pub fn missing_machine()
    ensures { (words : List (List ℕ)) (held : Holding) (machine circuit : List ℕ) (workers : ℕ) (mode : Mode)
        → request_of words ≡ Some (AskedRun (OfFile machine) circuit workers mode) → held.file machine ≡ None
        → IsDue words held 3 }
{}

/// The machine's file has more than 1,048,576 bytes: 5.
pub fn large_machine()
    ensures { (words : List (List ℕ)) (held : Holding) (machine circuit text : List ℕ) (workers : ℕ) (mode : Mode)
        → request_of words ≡ Some (AskedRun (OfFile machine) circuit workers mode)
        → held.file machine ≡ Some text → MACHINE_LIMIT < length text
        → IsDue words held 5 }
{}

/// The machine's text is refused: 6.
pub fn refused_machine()
    ensures { (words : List (List ℕ)) (held : Holding) (machine circuit text : List ℕ) (workers : ℕ) (mode : Mode) (fault : TextFault)
        → request_of words ≡ Some (AskedRun (OfFile machine) circuit workers mode)
        → held.file machine ≡ Some text → length text ≤ MACHINE_LIMIT → IsRefusalOf text fault
        → IsDue words held 6 }
{}

/// The circuit's file is not held: 3.
pub fn missing_circuit()
    ensures { (words : List (List ℕ)) (held : Holding) (machine : AskedMachine) (circuit : List ℕ) (workers : ℕ) (mode : Mode) (m : MachineData)
        → request_of words ≡ Some (AskedRun machine circuit workers mode) → MachineIn (Some held) machine (Gives m)
        → held.file circuit ≡ None
        → IsDue words held 3 }
{}

/// The circuit's file has more than 16,777,216 bytes: 5.
pub fn large_circuit()
    ensures { (words : List (List ℕ)) (held : Holding) (machine : AskedMachine) (circuit text : List ℕ) (workers : ℕ) (mode : Mode) (m : MachineData)
        → request_of words ≡ Some (AskedRun machine circuit workers mode) → MachineIn (Some held) machine (Gives m)
        → held.file circuit ≡ Some text → CIRCUIT_LIMIT < length text
        → IsDue words held 5 }
{}

/// The circuit's text is refused: 7.
pub fn refused_circuit()
    ensures { (words : List (List ℕ)) (held : Holding) (machine : AskedMachine) (circuit text : List ℕ) (workers : ℕ) (mode : Mode) (m : MachineData) (at : ℕ) (kind : QasmKind)
        → request_of words ≡ Some (AskedRun machine circuit workers mode) → MachineIn (Some held) machine (Gives m)
        → held.file circuit ≡ Some text → length text ≤ CIRCUIT_LIMIT → IsRefusedAt text at kind
        → IsDue words held 7 }
{}

/// The circuit has more qubits than the machine has slots: 8.
pub fn too_few_slots()
    ensures { (words : List (List ℕ)) (held : Holding) (machine : AskedMachine) (circuit text : List ℕ) (workers : ℕ) (mode : Mode) (m : MachineData) (c : CircuitData)
        → request_of words ≡ Some (AskedRun machine circuit workers mode) → MachineIn (Some held) machine (Gives m)
        → held.file circuit ≡ Some text → length text ≤ CIRCUIT_LIMIT → IsCircuitOf text c → slots_of m < c.qubits
        → IsDue words held 8 }
{}

/// The program might grow past its limit with the next item: 9.
pub fn too_long()
    ensures { (words : List (List ℕ)) (held : Holding) (machine : AskedMachine) (circuit text : List ℕ) (workers : ℕ) (mode : Mode) (m : MachineData) (c : CircuitData) (done ops : ℕ)
        → request_of words ≡ Some (AskedRun machine circuit workers mode) → MachineIn (Some held) machine (Gives m)
        → held.file circuit ≡ Some text → length text ≤ CIRCUIT_LIMIT → IsCircuitOf text c → c.qubits ≤ slots_of m
        → IsTooLong c m mode done ops
        → IsDue words held 9 }
{}

/// A run of a circuit within the machine's slots, the bounds of whose items are together within the limit: 0.
pub fn accepted_run()
    ensures { (words : List (List ℕ)) (held : Holding) (machine : AskedMachine) (circuit text : List ℕ) (workers : ℕ) (mode : Mode) (m : MachineData) (c : CircuitData)
        → request_of words ≡ Some (AskedRun machine circuit workers mode) → MachineIn (Some held) machine (Gives m)
        → held.file circuit ≡ Some text → length text ≤ CIRCUIT_LIMIT → IsCircuitOf text c → c.qubits ≤ slots_of m
        → length c.items * worst_of m ≤ 4194304
        → IsDue words held 0 }
{}

/// The text of the program of such a circuit: 0.
pub fn accepted_compile()
    ensures { (words : List (List ℕ)) (held : Holding) (machine : AskedMachine) (circuit text : List ℕ) (mode : Mode) (m : MachineData) (c : CircuitData)
        → request_of words ≡ Some (AskedCompile machine circuit mode) → MachineIn (Some held) machine (Gives m)
        → held.file circuit ≡ Some text → length text ≤ CIRCUIT_LIMIT → IsCircuitOf text c → c.qubits ≤ slots_of m
        → length c.items * worst_of m ≤ 4194304
        → IsDue words held 0 }
{}

/// The program's file is not held: 3.
pub fn missing_program()
    ensures { (words : List (List ℕ)) (held : Holding) (machine : AskedMachine) (program : List ℕ) (workers : ℕ) (m : MachineData)
        → request_of words ≡ Some (AskedExec machine program workers) → MachineIn (Some held) machine (Gives m)
        → held.file program ≡ None
        → IsDue words held 3 }
{}

/// The program's file has more than 268,435,456 bytes: 5.
pub fn large_program()
    ensures { (words : List (List ℕ)) (held : Holding) (machine : AskedMachine) (program text : List ℕ) (workers : ℕ) (m : MachineData)
        → request_of words ≡ Some (AskedExec machine program workers) → MachineIn (Some held) machine (Gives m)
        → held.file program ≡ Some text → PROGRAM_LIMIT < length text
        → IsDue words held 5 }
{}

/// The program's text is refused: 10.
pub fn refused_program_text()
    ensures { (words : List (List ℕ)) (held : Holding) (machine : AskedMachine) (program text : List ℕ) (workers : ℕ) (m : MachineData) (line : ℕ) (kind : AsmKind)
        → request_of words ≡ Some (AskedExec machine program workers) → MachineIn (Some held) machine (Gives m)
        → held.file program ≡ Some text → length text ≤ PROGRAM_LIMIT → texts.IsRefusedAt text (refused line kind)
        → IsDue words held 10 }
{}

/// What the text spells is no program of the machine: 10.
pub fn refused_program()
    ensures { (words : List (List ℕ)) (held : Holding) (machine : AskedMachine) (program text : List ℕ) (workers : ℕ) (m : MachineData) (raw : texts.RawData) (fault : LoadFault)
        → request_of words ≡ Some (AskedExec machine program workers) → MachineIn (Some held) machine (Gives m)
        → held.file program ≡ Some text → length text ≤ PROGRAM_LIMIT → texts.Spells text raw → load_refusal m raw ≡ Some fault
        → IsDue words held 10 }
{}

/// A program that its file holds: 0.
pub fn accepted_exec()
    ensures { (words : List (List ℕ)) (held : Holding) (machine : AskedMachine) (program : List ℕ) (workers : ℕ) (m : MachineData) (p : ProgramData)
        → request_of words ≡ Some (AskedExec machine program workers) → MachineIn (Some held) machine (Gives m) → ProgramIn (Some held) m program (Gives p)
        → IsDue words held 0 }
{}

/// A program that its file holds is tidied: 0.
pub fn accepted_tidy()
    ensures { (words : List (List ℕ)) (held : Holding) (machine : AskedMachine) (program : List ℕ) (m : MachineData) (p : ProgramData)
        → request_of words ≡ Some (AskedTidy machine program) → MachineIn (Some held) machine (Gives m) → ProgramIn (Some held) m program (Gives p)
        → IsDue words held 0 }
{}

/// For a comparison the circuit is told first: 7 where its text is refused, whatever the program's file.
pub fn circuit_before_program()
    ensures { (words : List (List ℕ)) (held : Holding) (machine : AskedMachine) (circuit program text : List ℕ) (m : MachineData) (at : ℕ) (kind : QasmKind)
        → request_of words ≡ Some (AskedCheck machine circuit program) → MachineIn (Some held) machine (Gives m)
        → held.file circuit ≡ Some text → length text ≤ CIRCUIT_LIMIT → IsRefusedAt text at kind
        → IsDue words held 7 }
{}

/// The verdict on the program is another than that it is the same: 11.
pub fn not_the_same()
    ensures { (words : List (List ℕ)) (held : Holding) (machine : AskedMachine) (circuit program : List ℕ) (m : MachineData) (c : CircuitData) (p : ProgramData) (verdict : Verdict)
        → request_of words ≡ Some (AskedCheck machine circuit program) → MachineIn (Some held) machine (Gives m) → CircuitIn (Some held) circuit (Gives c)
        → ProgramIn (Some held) m program (Gives p) → IsVerdict c p verdict → verdict ≢ Same
        → IsDue words held 11 }
{}

/// The program implements the circuit: 0.
pub fn accepted_check()
    ensures { (words : List (List ℕ)) (held : Holding) (machine : AskedMachine) (circuit program : List ℕ) (m : MachineData) (c : CircuitData) (p : ProgramData)
        → request_of words ≡ Some (AskedCheck machine circuit program) → MachineIn (Some held) machine (Gives m) → CircuitIn (Some held) circuit (Gives c)
        → ProgramIn (Some held) m program (Gives p) → Implements p c m
        → IsDue words held 0 }
{}

/// A rehearsal within the machine's slots, the bounds of whose items are together within the limit: 0.
pub fn accepted_rehearsal()
    ensures { (words : List (List ℕ)) (held : Holding) (number qubits items : ℕ) (machine : AskedMachine) (workers : ℕ) (m : MachineData)
        → request_of words ≡ Some (AskedRehearse number qubits items machine workers) → MachineIn (Some held) machine (Gives m)
        → qubits ≤ slots_of m → items * worst_of m ≤ 4194304
        → IsDue words held 0 }
{}

/// Which machine a word gives: one that is known by name, or that of a text that is held.
pub fn machine_given()
    ensures preset { (held : Holding) (which : Preset) (capacity : ℕ) → MachineIn (Some held) (OfPreset which capacity) (Gives (preset_of which capacity)) }
    ensures file { (held : Holding) (name text : List ℕ) (m : MachineData) → held.file name ≡ Some text → length text ≤ MACHINE_LIMIT → IsMachineOf text m
        → MachineIn (Some held) (OfFile name) (Gives m) }
{}

/// Which circuit and which program a file gives: those of a text that is held. A program is given where what the
/// text spells is a legal program of the machine.
pub fn files_given()
    ensures circuit { (held : Holding) (name text : List ℕ) (c : CircuitData) → held.file name ≡ Some text → length text ≤ CIRCUIT_LIMIT → IsCircuitOf text c
        → CircuitIn (Some held) name (Gives c) }
    ensures program { (held : Holding) (name text : List ℕ) (m : MachineData) (raw : texts.RawData) → held.file name ≡ Some text → length text ≤ PROGRAM_LIMIT
        → texts.Spells text raw → IsLegalProgram (on_machine m raw)
        → ProgramIn (Some held) m name (Gives (on_machine m raw)) }
{}

/// What the run of a program in a file writes, where its text is the one that compiling writes, is what the run of
/// the circuit writes.
pub fn runs_what_is_compiled()
    ensures { (held : Holding) (machine : AskedMachine) (circuit program text report : List ℕ) (mode : Mode) (workers others : ℕ)
        → HasCapacity machine
        → TextOf (Some held) (AskedCompile machine circuit mode) (Gives text) → TextOf (Some held) (AskedRun machine circuit workers mode) (Gives report)
        → held.file program ≡ Some text → length text ≤ PROGRAM_LIMIT
        → TextOf (Some held) (AskedExec machine program others) (Gives report) }
{}
