//! Changes of mstatus, which stays inside its mask, with a real mode in MPP.

ghost use Rattle.std.specs.Prelude.{◌≡◌, ◌≢◌, ◌+◌, ◌-◌, ◌*◌, ◌^◌, ◌<◌, ◌≤◌};
ghost use Rattle.std.specs.Int.RustNames.{bit_and};
ghost use Rattle.hv_word.specs.Words.{field_of, field_put};
ghost use Rattle.hv_cpu.specs.Masks.{mstatus_mask};
ghost use Rattle.hv_csr.specs.Table.{mpp_bits, status_of};
ghost use Rattle.hv_csr.specs.Traps.{entered_m as entered_m_of, entered_s as entered_s_of, left_m as left_m_of, left_s as left_s_of, unprivileged as unprivileged_of};

use hv_cpu::MSTATUS_MASK;
use hv_cpu::mstatus::{MIE, MPIE, MPP, MPP_BITS, MPRV, SIE, SPIE, SPP};
use hv_word::{field, field_set};

// One field of mstatus that lies inside its mask, replaced by the low bits of `value`.
fn set_status<const LO: u32, const LEN: u32>(status: u32, value: u32) -> u32
    requires some { 1 ≤ LEN }
    requires fits { LO + LEN ≤ 32 }
    requires inside { bit_and ((2 ^ LEN - 1) * 2 ^ LO) mstatus_mask ≡ (2 ^ LEN - 1) * 2 ^ LO }
    requires masked { bit_and status mstatus_mask ≡ status }
    ensures put { result ≡ field_put status LO LEN value }
    ensures masked { bit_and result mstatus_mask ≡ result }
    ensures mpp { bit_and ((2 ^ LEN - 1) * 2 ^ LO) mpp_bits ≡ 0 → field_of result 11 2 ≡ field_of status 11 2 }
{
    field_set::<LO, LEN>(status, value)
}

// mstatus after a write of `value` over `old`: a reserved mode in MPP keeps the old one.
#[tactic(auto, using(crate::proofs::Merge::cut_inside, crate::proofs::Merge::cut_mpp))]
pub(crate) fn written(old: u32, value: u32) -> u32
    requires masked { bit_and old mstatus_mask ≡ old }
    requires mpp { field_of old 11 2 ≢ 2 }
    ensures is { result ≡ status_of old value }
    ensures masked { bit_and result mstatus_mask ≡ result }
    ensures mpp { field_of result 11 2 ≢ 2 }
{
    let kept = value & MSTATUS_MASK;
    if field::<MPP, MPP_BITS>(value) == 2 {
        set_status::<MPP, MPP_BITS>(kept, field::<MPP, MPP_BITS>(old))
    } else {
        kept
    }
}

// mstatus on entry to M from `mode`.
pub(crate) fn entered_m(status: u32, mode: u32) -> u32
    requires masked { bit_and status mstatus_mask ≡ status }
    requires real { mode ≢ 2 }
    requires fits { mode < 4 }
    ensures is { result ≡ entered_m_of status mode }
    ensures masked { bit_and result mstatus_mask ≡ result }
    ensures mpp { field_of result 11 2 ≢ 2 }
{
    let status = set_status::<MPIE, 1>(status, field::<MIE, 1>(status));
    let status = set_status::<MIE, 1>(status, 0);
    set_status::<MPP, MPP_BITS>(status, mode)
}

// mstatus on entry to S from `mode`.
pub(crate) fn entered_s(status: u32, mode: u32) -> u32
    requires masked { bit_and status mstatus_mask ≡ status }
    requires mpp { field_of status 11 2 ≢ 2 }
    ensures is { result ≡ entered_s_of status mode }
    ensures masked { bit_and result mstatus_mask ≡ result }
    ensures mpp { field_of result 11 2 ≢ 2 }
{
    let status = set_status::<SPIE, 1>(status, field::<SIE, 1>(status));
    let status = set_status::<SIE, 1>(status, 0);
    set_status::<SPP, 1>(status, mode)
}

// mstatus after a return from M.
pub(crate) fn left_m(status: u32) -> u32
    requires masked { bit_and status mstatus_mask ≡ status }
    ensures is { result ≡ left_m_of status }
    ensures masked { bit_and result mstatus_mask ≡ result }
    ensures mpp { field_of result 11 2 ≢ 2 }
{
    let status = set_status::<MIE, 1>(status, field::<MPIE, 1>(status));
    let status = set_status::<MPIE, 1>(status, 1);
    set_status::<MPP, MPP_BITS>(status, 0)
}

// mstatus after a return by SRET.
pub(crate) fn left_s(status: u32) -> u32
    requires masked { bit_and status mstatus_mask ≡ status }
    requires mpp { field_of status 11 2 ≢ 2 }
    ensures is { result ≡ left_s_of status }
    ensures masked { bit_and result mstatus_mask ≡ result }
    ensures mpp { field_of result 11 2 ≢ 2 }
{
    let status = set_status::<SIE, 1>(status, field::<SPIE, 1>(status));
    let status = set_status::<SPIE, 1>(status, 1);
    set_status::<SPP, 1>(status, 0)
}

// mstatus after a return to `mode`: below M, MPRV is cleared.
pub(crate) fn unprivileged(status: u32, mode: u32) -> u32
    requires masked { bit_and status mstatus_mask ≡ status }
    requires mpp { field_of status 11 2 ≢ 2 }
    ensures is { result ≡ unprivileged_of status mode }
    ensures masked { bit_and result mstatus_mask ≡ result }
    ensures mpp { field_of result 11 2 ≢ 2 }
{
    if mode < 3 {
        set_status::<MPRV, 1>(status, 0)
    } else {
        status
    }
}
