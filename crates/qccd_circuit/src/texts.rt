//! Names and angles, which clauses see as lists of bytes.

ghost use Rattle.std.specs.Prelude.{◌≡◌, ◌==◌, IfOk, length};

use qccd_base::NoMemory;
use smallvec::SmallVec;
use std::alloc::Global;
use std::marker::Model;

/// The name of an item, as `h` or `measure`. One of up to sixteen bytes takes no memory of its own, unless it is made of
/// a vector that has more room: it keeps that vector's memory.
#[derive(Debug, Drop)]
pub struct Name {
    bytes: SmallVec<u8, 16>,
}

impl Model for Name {
    ghost use Rattle.std.specs.Prelude.{List, ℕ};

    ghost Value = { List ℕ };

    ghost view = { λ a. a.bytes.items };
}

impl Name {
    /// The name of these bytes.
    pub fn of(vector: Vec<u8>) -> Self
        ensures { result ≡ vector.items }
    {
        Name {
            bytes: SmallVec::from_vec(vector),
        }
    }

    /// The name of these bytes, copied.
    pub fn from_slice(alloc: Global, bytes: &[u8]) -> Result<Self, NoMemory>
        ensures { IfOk result (λ name. name ≡ bytes.now) }
    {
        let bytes = SmallVec::from_slice(alloc, bytes)?;
        Ok(Name { bytes })
    }

    /// The bytes, in order.
    pub fn as_slice(&self) -> &[u8]
        ensures { result.now ≡ self.now }
    {
        self.bytes.as_slice()
    }

    /// How many bytes there are.
    pub fn len(&self) -> usize
        ensures { result ≡ length self.now }
    {
        self.bytes.len()
    }

    /// Whether there is none.
    pub fn is_empty(&self) -> bool
        ensures { result ≡ (length self.now == 0) }
    {
        self.bytes.is_empty()
    }

    /// An equal name.
    pub fn copy(&self) -> Result<Name, NoMemory>
        ensures { IfOk result (λ name. name ≡ self.now) }
    {
        Name::from_slice(self.allocator(), self.as_slice())
    }

    // What the name's memory comes from.
    pub(crate) fn allocator(&self) -> Global {
        *self.bytes.allocator()
    }
}

/// An angle of a gate, as the text that the circuit was written with. One of up to sixteen bytes takes no memory of its
/// own, unless it is made of a vector that has more room: it keeps that vector's memory.
#[derive(Debug, Drop)]
pub struct Angle {
    bytes: SmallVec<u8, 16>,
}

impl Model for Angle {
    ghost use Rattle.std.specs.Prelude.{List, ℕ};

    ghost Value = { List ℕ };

    ghost view = { λ a. a.bytes.items };
}

impl Angle {
    /// The angle of these bytes.
    pub fn of(vector: Vec<u8>) -> Self
        ensures { result ≡ vector.items }
    {
        Angle {
            bytes: SmallVec::from_vec(vector),
        }
    }

    /// The angle of these bytes, copied.
    pub fn from_slice(alloc: Global, bytes: &[u8]) -> Result<Self, NoMemory>
        ensures { IfOk result (λ angle. angle ≡ bytes.now) }
    {
        let bytes = SmallVec::from_slice(alloc, bytes)?;
        Ok(Angle { bytes })
    }

    /// The bytes, in order.
    pub fn as_slice(&self) -> &[u8]
        ensures { result.now ≡ self.now }
    {
        self.bytes.as_slice()
    }

    /// How many bytes there are.
    pub fn len(&self) -> usize
        ensures { result ≡ length self.now }
    {
        self.bytes.len()
    }

    /// Whether there is none.
    pub fn is_empty(&self) -> bool
        ensures { result ≡ (length self.now == 0) }
    {
        self.bytes.is_empty()
    }

    /// An equal angle.
    pub fn copy(&self) -> Result<Angle, NoMemory>
        ensures { IfOk result (λ angle. angle ≡ self.now) }
    {
        Angle::from_slice(*self.bytes.allocator(), self.as_slice())
    }
}

/// The angles of an item, in order.
#[derive(Debug, Drop)]
pub struct AngleList {
    angles: Vec<Angle>,
}

impl Model for AngleList {
    ghost use Rattle.std.specs.Prelude.{List, ℕ};

    ghost Value = { List (List ℕ) };

    ghost view = { λ a. a.angles.items };
}

impl AngleList {
    /// The list of the vector's angles.
    pub fn of(vector: Vec<Angle>) -> Self
        ensures { result ≡ vector.items }
    {
        AngleList { angles: vector }
    }

    /// The angles, in order.
    pub fn as_slice(&self) -> &[Angle]
        ensures { result.now ≡ self.now }
    {
        self.angles.as_slice()
    }

    /// How many angles there are.
    pub fn len(&self) -> usize
        ensures { result ≡ length self.now }
    {
        self.angles.len()
    }

    /// Whether there is none.
    pub fn is_empty(&self) -> bool
        ensures { result ≡ (length self.now == 0) }
    {
        self.angles.is_empty()
    }

    /// An equal list.
    #[inline(always)]
    pub fn copy(&self) -> Result<AngleList, NoMemory>
        ensures { IfOk result (λ angles. angles ≡ self.now) }
    {
        let angles = copies(*self.angles.allocator(), self.angles.as_slice())?;
        Ok(AngleList { angles })
    }
}

// Copies of the angles, in order.
#[inline(always)]
fn copies(alloc: Global, angles: &[Angle]) -> Result<Vec<Angle>, NoMemory>
    ensures { IfOk result (λ copies. copies.items ≡ angles.now) }
{
    let mut copies = Vec::with_capacity(alloc, angles.len())?;
    for angle in angles {
        copies.push(angle.copy()?)?;
    }
    Ok(copies)
}
