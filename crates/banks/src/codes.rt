ghost use Rattle.std.specs.Prelude.{◌≡◌};
ghost use Rattle.banks.specs.Codes.{code_answer, role_answer};

use crate::bank::Bank;

// A role of a bank: its office and its number there.
#[derive(Clone, Copy, PartialEq, Eq, Debug)]
pub struct RoleAt {
    pub office: u8,
    pub role: u8,
}

// The code of a role: its office number × 64 plus its role number.
pub fn code_of<B: Bank>(bank: &B, office: u8, role: u8) -> Option<u16>
    ensures { result ≡ code_answer (B.offices bank.now) office role }
{
    let code = u16::from(office) * 64 + u16::from(role);
    (role < bank.role_count(office)).then_some(code)
}

// The role that has this code.
pub fn role_at<B: Bank>(bank: &B, code: u32) -> Option<RoleAt>
    ensures { result ≡ role_answer (B.offices bank.now) code }
{
    let office = u8::try_from(code / 64).ok()?;
    let role = (code % 64) as u8;
    (role < bank.role_count(office)).then_some(RoleAt { office, role })
}
