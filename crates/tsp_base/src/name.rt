//! Host names.
ghost use Rattle.std.specs.Prelude.{◌≡◌, [], take};
ghost use Rattle.tsp_base.specs.Names.{IsName, NameGives};

use std::marker::Model;
use thiserror::Error;

/// Why octets aren't a valid name.
#[derive(Clone, Copy, PartialEq, Eq, Debug, Error)]
pub enum NameFault {
    /// More than 255 octets.
    #[error("the name is longer than 255 octets")]
    TooLong,
    /// At most 255 octets, one of them zero.
    #[error("the name has a NUL")]
    HasNul,
}

/// A host's name: at most 255 octets without NUL; it may be empty. (RFC 1035 bounds a domain name so.)
///
/// It always takes 256 octets, so that a copy is one move of them.
#[derive(Drop)]
pub struct Name {
    octets: [u8; 255],
    len: u8,
}

impl Model for Name {
    ghost use Rattle.std.specs.Prelude.{List, ℕ, take};
    ghost use Rattle.tsp_base.specs.Names.{IsName};

    ghost Value = { List ℕ };

    ghost view = { λ n. take n.len n.octets };

    ghost invariant = { λ n. IsName (take n.len n.octets) };
}

impl Name {
    /// The name of these octets; `TooLong` exactly where there are more than 255, else `HasNul` exactly
    /// where one is zero.
    pub fn of(octets: &[u8]) -> Result<Name, NameFault>
        ensures { NameGives result octets.now }
    {
        if octets.len() > 255 {
            return Err(NameFault::TooLong);
        }
        if octets.contains(&0) {
            return Err(NameFault::HasNul);
        }
        Ok(Name::new(octets))
    }

    /// The name of octets that are known to be one.
    pub fn new(octets: &[u8]) -> Name
        requires { IsName octets.now }
        ensures { result ≡ octets.now }
    {
        let mut held = [0; 255];
        held[..octets.len()].copy_from_slice(octets);
        Name {
            octets: held,
            len: octets.len() as u8,
        }
    }

    /// The empty name.
    pub fn empty() -> Name
        ensures { result ≡ [] }
    {
        Name {
            octets: [0; 255],
            len: 0,
        }
    }

    /// The octets, without a NUL at the end.
    pub fn octets(&self) -> &[u8]
        ensures value { result.now ≡ self.now }
        ensures valid { IsName self.now }
    {
        &self.octets[..self.len as usize]
    }

    /// The same name again.
    pub fn copy(&self) -> Name
        ensures { result ≡ self.now }
    {
        Name {
            octets: self.octets,
            len: self.len,
        }
    }
}
