//! The angles of a body under arguments.

ghost use Rattle.std.specs.Prelude.{◌≡◌, ◌≤◌, ◌<◌, ◌++◌, All, IfOk, OnOk, length, map, flat_map, nat_lt, true, false};
ghost use Rattle.std.specs.List.{list_any};
ghost use Rattle.gate_defs.specs.Outcome.{GivesShort, TellsLong};
ghost use Rattle.gate_defs.specs.Angles.{alone, arg, angle_under, inner_text, is_long, piece_text};
ghost use Rattle.gate_defs.specs.Rule.{IsAngle, IsPiece};

use crate::faults::ExpandFault;
use crate::kinds::{Arg, Piece};
use crate::lists::PieceList;
use qccd_base::NoMemory;
use qccd_circuit::Angle;
use std::alloc::{AllocError, Global};

// Puts the argument at the end, in parentheses where it has more than one token.
fn put_argument(text: &mut Vec<u8>, arg: &Arg) -> Result<(), AllocError>
    ensures { OnOk result (text.new.items ≡ text.old.items ++ inner_text arg.now) }
{
    if arg.single {
        text.extend_from_slice(arg.text.as_slice())?;
    } else {
        text.push(b'(')?;
        text.extend_from_slice(arg.text.as_slice())?;
        text.push(b')')?;
    }
    Ok(())
}

// Puts the piece at the end.
fn put_piece(text: &mut Vec<u8>, args: &[Arg], piece: &Piece) -> Result<(), AllocError>
    requires { IsPiece (length args.now) piece.now }
    ensures { OnOk result (text.new.items ≡ text.old.items ++ piece_text args.now piece.now) }
{
    match piece {
        Piece::Text(token) => text.extend_from_slice(token.as_slice())?,
        Piece::Param(number) => put_argument(text, &args[*number as usize])?,
    }
    Ok(())
}

// Whether the text is past the limit of an angle.
fn is_past(text: &[u8]) -> bool
    ensures { result ≡ nat_lt 1024 (length text.now) }
{
    text.len() > 1024
}

// The angle of one piece.
fn alone(alloc: Global, args: &[Arg], piece: &Piece) -> Result<Arg, ExpandFault>
    requires { IsPiece (length args.now) piece.now }
    ensures { GivesShort result (alone args.now piece.now) }
{
    let arg = match piece {
        Piece::Text(token) => Arg {
            text: Angle::from_slice(alloc, token.as_slice())?,
            single: true,
        },
        Piece::Param(number) => args[*number as usize].copy()?,
    };
    short(arg)
}

// The argument, where it is not past the limit.
fn short(arg: Arg) -> Result<Arg, ExpandFault>
    ensures { GivesShort result arg }
{
    if is_past(arg.text.as_slice()) {
        return Err(ExpandFault::AngleTooLong);
    }
    Ok(arg)
}

// The angle of several pieces. It ends where the text is past the limit.
fn joined(alloc: Global, args: &[Arg], pieces: &[Piece]) -> Result<Arg, ExpandFault>
    requires { All (IsPiece (length args.now)) pieces.now }
    ensures { GivesShort result (arg (flat_map (piece_text args.now) pieces.now) false) }
{
    let mut text = Vec::new(alloc);
    for piece in pieces {
        put_piece(&mut text, args, piece)?;
        if is_past(&text) {
            return Err(ExpandFault::AngleTooLong);
        }
    }
    Ok(Arg {
        text: Angle::of(text),
        single: false,
    })
}

// The angle under these arguments.
fn angle_under(alloc: Global, args: &[Arg], pieces: &[Piece]) -> Result<Arg, ExpandFault>
    requires { IsAngle (length args.now) pieces.now }
    ensures { GivesShort result (angle_under args.now pieces.now) }
{
    match pieces {
        [piece] => alone(alloc, args, piece),
        _ => joined(alloc, args, pieces),
    }
}

/// The angles of a step under these arguments.
pub(crate) fn angles_under(
    alloc: Global,
    args: &[Arg],
    angles: &[PieceList],
) -> Result<Vec<Arg>, ExpandFault>
    requires { All (IsAngle (length args.now)) angles.now }
    ensures value { IfOk result (λ list. list.items ≡ map (angle_under args.now) angles.now) }
    ensures short { IfOk result (λ list. list_any is_long list.items ≡ false) }
    ensures long { TellsLong result (list_any is_long (map (angle_under args.now) angles.now)) }
{
    let mut list = Vec::with_capacity(alloc, angles.len())?;
    for pieces in angles {
        list.push(angle_under(alloc, args, pieces.as_slice())?)?;
    }
    Ok(list)
}

/// Copies of the arguments.
pub(crate) fn copied(alloc: Global, args: &[Arg]) -> Result<Vec<Arg>, NoMemory>
    ensures { IfOk result (λ list. list.items ≡ args.now) }
{
    let mut list = Vec::with_capacity(alloc, args.len())?;
    for arg in args {
        list.push(arg.copy()?)?;
    }
    Ok(list)
}
