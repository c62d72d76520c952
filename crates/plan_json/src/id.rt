//! The id of a plan.
ghost use Rattle.std.specs.Prelude.{◌≡◌, length};
ghost use Rattle.plan_json.specs.Id.{id_of};

use sha1::Sha1;
use std::marker::Model;

/// The id of a plan: the 40 hexadecimal digits of the SHA-1 digest (FIPS 180-4) of its text, in lower case.
#[derive(Clone, Copy, PartialEq, Eq)]
pub struct PlanId {
    digits: [u8; 40],
}

impl Model for PlanId {
    ghost use Rattle.std.specs.Prelude.{ℕ, List};
    ghost use Rattle.std.specs.Str.{IsAscii};

    ghost Value = { List ℕ };

    ghost view = { λ id. id.digits };

    ghost invariant = { λ id. IsAscii id.digits };

    ghost inverse = { λ digits. record { digits = digits } };
}

impl PlanId {
    /// The digits.
    pub fn as_str(&self) -> &str
        ensures digits { result.now ≡ self.now }
    {
        str::from_utf8(&self.digits).unwrap()
    }
}

/// The id of a plan's text. It takes no memory.
pub fn plan_id(text: &[u8]) -> PlanId
    ensures { result ≡ id_of text.now }
{
    let digest = Sha1::digest(text);
    let mut digits = [0u8; 40];
    let _written = hex::encode_to_slice(digest, &mut digits);
    PlanId { digits }
}
