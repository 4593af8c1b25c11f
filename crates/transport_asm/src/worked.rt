//! Worked examples over the definitions, each a function whose contract is the fact.

ghost use Rattle.std.specs.Prelude.{◌≡◌, [], ◌∷◌, codes, None, Some, Ok, Err};
ghost use Rattle.qccd_base.specs.Names.{qubit, trap, segment, junction};
ghost use Rattle.qccd_base.specs.declared.names.End.TheVariants.{Left, Right};
ghost use Rattle.qccd_base.specs.declared.names.Mode.TheVariants.{GateSwap, IonSwap};
ghost use Rattle.qccd_circuit.specs.Example.{barrier_over, cx_on, h_on, h_under, measure_into, reset_of};
ghost use Rattle.op_table.specs.declared.kinds.OpKind.TheVariants.{Split, Move, Enter, Leave, Merge, Rot, GSwap, Item, Fence};
ghost use Rattle.op_text.specs.declared.kind.AsmKind.TheVariants.{Header, Word, Number, Count, NotBuilt, TooMany};
ghost use Rattle.transport_asm.specs.Lines.{words_of, refused};
ghost use Rattle.op_text.specs.Example.{turned, under};
ghost use Rattle.op_text.specs.Operations.{read_op};
ghost use Rattle.transport_asm.specs.Texts.{Spells, IsRefusedAt, raw_text};
ghost use Rattle.transport_asm.specs.Example.{compiled, compiled_raw, cut, counted, of_version, one_ion, with_head, without_end, following};

/// A program of eight operations on six traps, read and written.
pub fn eight_operations()
    ensures read { Spells compiled compiled_raw }
    ensures written { raw_text compiled_raw ≡ compiled }
{}

/// Texts that are refused, each at its line.
pub fn refused_texts()
    ensures empty { IsRefusedAt [] (refused 1 Count) }
    ensures version { IsRefusedAt (of_version (codes "QCCD 3")) (refused 1 NotBuilt) }
    ensures wide { IsRefusedAt (of_version (codes "QCCD 4294967296")) (refused 1 Number) }
    ensures led { IsRefusedAt (of_version (codes "QCCD 01")) (refused 1 Number) }
    ensures trailing { IsRefusedAt (of_version (codes "QCCD 1 ")) (refused 1 Header) }
    ensures further { IsRefusedAt (of_version (codes "QCCD 1 1")) (refused 1 Header) }
    ensures name { IsRefusedAt (of_version (codes "qccd 1")) (refused 1 Header) }
    ensures missing { IsRefusedAt (of_version (codes "QCCD 1")) (refused 3 Count) }
    ensures zero { IsRefusedAt (counted (codes "ops 01")) (refused 11 Number) }
    ensures many { IsRefusedAt (counted (codes "ops 4194305")) (refused 11 TooMany) }
    ensures few { IsRefusedAt (counted (codes "ops 7")) (refused 19 Word) }
    ensures more { IsRefusedAt (counted (codes "ops 9")) (refused 20 Word) }
    ensures cut { IsRefusedAt cut (refused 15 Count) }
    ensures no_end { IsRefusedAt without_end (refused 20 Count) }
    ensures behind { IsRefusedAt following (refused 21 Count) }
{}

/// The first lines of texts that name their mode, and of those that don't.
pub fn modes()
    ensures ion { Spells (with_head (codes "QCCD 2" ∷ codes "mode ion" ∷ [])) (one_ion (Some IonSwap)) }
    ensures gate { Spells (with_head (codes "QCCD 2" ∷ codes "mode gate" ∷ [])) (one_ion (Some GateSwap)) }
    ensures none { Spells (with_head (codes "QCCD 1" ∷ [])) (one_ion None) }
    ensures written { raw_text (one_ion (Some GateSwap)) ≡ with_head (codes "QCCD 2" ∷ codes "mode gate" ∷ []) }
    ensures lacking { IsRefusedAt (with_head (codes "QCCD 2" ∷ [])) (refused 2 Word) }
    ensures of_another { IsRefusedAt (with_head (codes "QCCD 2" ∷ codes "mode Ion" ∷ [])) (refused 2 Word) }
    ensures of_none { IsRefusedAt (with_head (codes "QCCD 2" ∷ codes "mode" ∷ [])) (refused 2 Word) }
    ensures of_two { IsRefusedAt (with_head (codes "QCCD 2" ∷ codes "mode ion gate" ∷ [])) (refused 2 Word) }
    ensures in_the_first { IsRefusedAt (with_head (codes "QCCD 1" ∷ codes "mode ion" ∷ [])) (refused 2 Word) }
    ensures led { IsRefusedAt (with_head (codes "QCCD 02" ∷ codes "mode ion" ∷ [])) (refused 1 Number) }
    ensures trailing { IsRefusedAt (with_head (codes "QCCD 2 " ∷ codes "mode ion" ∷ [])) (refused 1 Header) }
    ensures behind { IsRefusedAt (with_head (codes "QCCD 2" ∷ codes "mode ion" ∷ codes "mode ion" ∷ [])) (refused 3 Word) }
{}

/// Operations that are read.
pub fn read_operations()
    ensures split { read_op (words_of (codes "split T3 left S12")) ≡ Ok (Split (trap 3) Left (segment 12)) }
    ensures rot { read_op (words_of (codes "rot T0 0")) ≡ Ok (Rot (trap 0) 0) }
    ensures greatest { read_op (words_of (codes "enter S255 J255")) ≡ Ok (Enter (segment 255) (junction 255)) }
    ensures angles { read_op (words_of (codes "item 9 u3(pi/2,0,-pi) T1 q0@2")) ≡ Ok (Item 9 (trap 1) (turned 0) (2 ∷ [])) }
    ensures measure { read_op (words_of (codes "item 7 measure T0 q3@2 b5")) ≡ Ok (Item 7 (trap 0) (measure_into 3 5) (2 ∷ [])) }
    ensures reset { read_op (words_of (codes "item 4 reset T2 q1@0")) ≡ Ok (Item 4 (trap 2) (reset_of 1) (0 ∷ [])) }
    ensures fence { read_op (words_of (codes "fence 40 T0 T2 q5 q0 q9"))
        ≡ Ok (Fence 40 (barrier_over (qubit 5 ∷ qubit 0 ∷ qubit 9 ∷ [])) (trap 0 ∷ trap 2 ∷ [])) }
{}

/// Words of operations that are refused: the first offending word decides, and the rule of items and the
/// orders come last.
pub fn refused_words()
    ensures empty { read_op (words_of []) ≡ Err Word }
    ensures unknown { read_op (words_of (codes "turn T0 0")) ≡ Err Word }
    ensures missing { read_op (words_of (codes "rot T0")) ≡ Err Word }
    ensures further { read_op (words_of (codes "rot T0 0 0")) ≡ Err Word }
    ensures trailing { read_op (words_of (codes "rot T0 0 ")) ≡ Err Word }
    ensures zero { read_op (words_of (codes "rot T0 01")) ≡ Err Number }
    ensures position { read_op (words_of (codes "rot T0 256")) ≡ Err Number }
    ensures trap { read_op (words_of (codes "rot T256 0")) ≡ Err Number }
    ensures letter { read_op (words_of (codes "rot S0 0")) ≡ Err Word }
    ensures first_word { read_op (words_of (codes "rot T x")) ≡ Err Word }
    ensures end { read_op (words_of (codes "split T0 up S0")) ≡ Err Word }
    ensures segment { read_op (words_of (codes "move S256")) ≡ Err Number }
    ensures junction { read_op (words_of (codes "leave J256 S0")) ≡ Err Number }
    ensures order { read_op (words_of (codes "gswap T0 4 4")) ≡ Err Word }
    ensures order_last { read_op (words_of (codes "gswap T0 4 04")) ≡ Err Number }
{}

/// The same of items.
pub fn refused_items()
    ensures bit { read_op (words_of (codes "item 0 h T0 q0@0 b70000")) ≡ Err Word }
    ensures no_bit { read_op (words_of (codes "item 0 measure T0 q0@0")) ≡ Err Word }
    ensures bit_number { read_op (words_of (codes "item 0 measure T0 q0@0 b65536")) ≡ Err Number }
    ensures early { read_op (words_of (codes "item 0 measure T0 q0@0 if")) ≡ Err Word }
    ensures twice { read_op (words_of (codes "item 0 cx T0 q0@0 q0@1")) ≡ Err Word }
    ensures word_first { read_op (words_of (codes "item 0 cx T0 q0@0 q0@1 q01@0")) ≡ Err Word }
    ensures operand_form { read_op (words_of (codes "item 0 h T0 q70000@x")) ≡ Err Word }
    ensures operand_number { read_op (words_of (codes "item 0 h T0 q70000@0")) ≡ Err Number }
    ensures operand_position { read_op (words_of (codes "item 0 h T0 q0@256")) ≡ Err Number }
    ensures number { read_op (words_of (codes "item 4294967296 h T0 q0@0")) ≡ Err Number }
    ensures many_angles { read_op (words_of (codes "item 0 rx(1,2,3,4,5,6,7,8,9,10,11,12,13,14,15,16,17) T0 q0@0")) ≡ Err TooMany }
    ensures most_angles { read_op (words_of (codes "item 0 rx(,,,,,,,,,,,,,,,) T0 q0@0")) ≡ Err Word }
    ensures no_angle { read_op (words_of (codes "item 0 rx() T0 q0@0")) ≡ Err Word }
    ensures unclosed { read_op (words_of (codes "item 0 rx(1 T0 q0@0")) ≡ Err Word }
    ensures barrier { read_op (words_of (codes "item 0 barrier T0 q0@0")) ≡ Err Word }
    ensures reset_angle { read_op (words_of (codes "item 0 reset(1) T0 q0@0")) ≡ Err Word }
{}

/// Conditions that are read, behind each kind of item. The last ones have as many bits as there may be, and the
/// greatest value.
pub fn read_conditions()
    ensures gate { read_op (words_of (codes "item 1 h T1 q1@0 if b0 2 1")) ≡ Ok (Item 1 (trap 1) (h_under 1 0 2) (0 ∷ [])) }
    ensures two { read_op (words_of (codes "item 2 cx T0 q0@0 q1@1 if b3 4 9")) ≡ Ok (Item 2 (trap 0) (under (cx_on 0 1) 3 4 9) (0 ∷ 1 ∷ [])) }
    ensures measure { read_op (words_of (codes "item 7 measure T0 q3@2 b5 if b5 1 0")) ≡ Ok (Item 7 (trap 0) (under (measure_into 3 5) 5 1 0) (2 ∷ [])) }
    ensures reset { read_op (words_of (codes "item 4 reset T2 q1@0 if b65535 1 1")) ≡ Ok (Item 4 (trap 2) (under (reset_of 1) 65535 1 1) (0 ∷ [])) }
    ensures most { read_op (words_of (codes "item 0 h T0 q0@0 if b1 65535 0")) ≡ Ok (Item 0 (trap 0) (under (h_on 0) 1 65535 0) (0 ∷ [])) }
    ensures greatest { read_op (words_of (codes "item 0 h T0 q0@0 if b0 1 340282366920938463463374607431768211455"))
        ≡ Ok (Item 0 (trap 0) (under (h_on 0) 0 1 340282366920938463463374607431768211455) (0 ∷ [])) }
{}

/// Words of conditions that are refused. How many bits there are is judged at its word, in front of the value.
pub fn refused_conditions()
    ensures no_words { read_op (words_of (codes "item 0 measure T0 q0@0 b0 if")) ≡ Err Word }
    ensures no_bit { read_op (words_of (codes "item 0 h T0 q0@0 if q0 1 1")) ≡ Err Word }
    ensures bit { read_op (words_of (codes "item 0 h T0 q0@0 if b65536 1 1")) ≡ Err Number }
    ensures no_count { read_op (words_of (codes "item 0 h T0 q0@0 if b0")) ≡ Err Word }
    ensures none { read_op (words_of (codes "item 0 h T0 q0@0 if b0 0 1")) ≡ Err Word }
    ensures zero { read_op (words_of (codes "item 0 h T0 q0@0 if b0 01 1")) ≡ Err Number }
    ensures many { read_op (words_of (codes "item 0 h T0 q0@0 if b0 65536 1")) ≡ Err Word }
    ensures past { read_op (words_of (codes "item 0 h T0 q0@0 if b2 65535 1")) ≡ Err Word }
    ensures most { read_op (words_of (codes "item 0 h T0 q0@0 if b0 4294967295 1")) ≡ Err Word }
    ensures wide { read_op (words_of (codes "item 0 h T0 q0@0 if b0 4294967296 1")) ≡ Err Number }
    ensures no_value { read_op (words_of (codes "item 0 h T0 q0@0 if b0 1")) ≡ Err Word }
    ensures value_form { read_op (words_of (codes "item 0 h T0 q0@0 if b0 1 -1")) ≡ Err Word }
    ensures value_zero { read_op (words_of (codes "item 0 h T0 q0@0 if b0 1 00")) ≡ Err Number }
    ensures value { read_op (words_of (codes "item 0 h T0 q0@0 if b0 1 340282366920938463463374607431768211456")) ≡ Err Number }
    ensures count_first { read_op (words_of (codes "item 0 h T0 q0@0 if b0 0 01")) ≡ Err Word }
    ensures further { read_op (words_of (codes "item 0 h T0 q0@0 if b0 1 1 if")) ≡ Err Word }
    ensures rule_last { read_op (words_of (codes "item 0 cx T0 q0@0 q0@1 if b0 1 01")) ≡ Err Number }
    ensures barrier { read_op (words_of (codes "item 0 barrier T0 q0@0 if b0 1 1")) ≡ Err Word }
    ensures fence { read_op (words_of (codes "fence 0 T0 q0 if b0 1 1")) ≡ Err Word }
{}

/// And of fences.
pub fn refused_fences()
    ensures late_trap { read_op (words_of (codes "fence 0 T0 q0 T1")) ≡ Err Word }
    ensures no_qubit { read_op (words_of (codes "fence 0 T0")) ≡ Err Word }
    ensures no_trap { read_op (words_of (codes "fence 0 q0")) ≡ Err Word }
    ensures descending { read_op (words_of (codes "fence 0 T1 T0 q0")) ≡ Err Word }
    ensures equal { read_op (words_of (codes "fence 0 T1 T1 q0")) ≡ Err Word }
    ensures twice { read_op (words_of (codes "fence 0 T0 q0 q1 q0")) ≡ Err Word }
    ensures number_first { read_op (words_of (codes "fence 0 T1 T0 q0 q01")) ≡ Err Number }
{}
