//! Proof lines that are found again by what they say.

ghost use Rattle.std.specs.Prelude.{◌<◌, List, length, IfSome, IfOk};
ghost use Rattle.pm_dtext.specs.declared.line.Line.{Line};
ghost use Rattle.pm_write.specs.Writing.{AreRecalled, IsRecalled};

use crate::written::{Earlier, same_entail};
use pm_logic::{Formula, Memory, Pure, Term};
use pm_rules::Entail;
use std::alloc::Global;

/// At most so many lines are kept of a proof, so that what is kept takes little beside the proof.
const MAX_PLACES: usize = 65_536;

/// Places for the lines of a proof of so many parts, without any.
pub fn places<'a>(alloc: Global, parts: usize) -> Result<Vec<Option<Earlier<'a>>>, Memory>
    ensures some { IfOk result (λ ps. 0 < length ps.items) }
    ensures none { IfOk result (λ ps. (lines : List Line) → AreRecalled lines ps.items) }
{
    let mut out = Vec::new(alloc);
    out.push(None)?;
    for _ in 1..parts.min(MAX_PLACES) {
        out.push(None)?;
    }
    Ok(out)
}

/// The line in this place, where it says `e`.
pub fn number_at(places: &[Option<Earlier>], at: usize, e: &Entail) -> Option<u64>
    requires { at < length places.now }
    ensures { IfSome result (λ n. IsRecalled places.now e.now n) }
{
    let place = places[at];
    let known = place?;
    if same_entail(known.entail, e) {
        Some(known.number)
    } else {
        None
    }
}

/// The place for lines that say `e`, among so many. Where two lead to one place, the later line stays there.
pub fn place_of(e: &Entail, count: usize) -> usize
    requires { 0 < count }
    ensures { result < count }
{
    let left = mix_formula(u64::from(e.vars), &e.left);
    let both = mix_formula(left, &e.right);
    (both % count as u64) as usize
}

/// Mixes a number into what is mixed so far.
fn mix(so_far: u64, number: u64) -> u64 {
    let mixed = (so_far ^ number).wrapping_mul(0x9E37_79B9_7F4A_7C15);
    mixed ^ (mixed >> 29)
}

fn mix_term(so_far: u64, t: &Term) -> u64 {
    match t {
        Term::Lit(z) => mix(mix(so_far, 1), z.unsigned_abs()),
        Term::Var(i) => mix(mix(so_far, 2), u64::from(*i)),
        Term::Add(a, b) => mix_term(mix_term(mix(so_far, 3), a.get()), b.get()),
        Term::Sub(a, b) => mix_term(mix_term(mix(so_far, 4), a.get()), b.get()),
        Term::Neg(a) => mix_term(mix(so_far, 5), a.get()),
        Term::Scale(z, a) => mix_term(mix(mix(so_far, 6), z.unsigned_abs()), a.get()),
    }
}

fn mix_terms(so_far: u64, ts: &[Term]) -> u64 {
    match ts {
        [] => so_far,
        [t, rest @ ..] => mix_terms(mix_term(so_far, t), rest),
    }
}

fn mix_pure(so_far: u64, p: &Pure) -> u64 {
    match p {
        Pure::True => mix(so_far, 7),
        Pure::False => mix(so_far, 8),
        Pure::Eq(s, t) => mix_term(mix_term(mix(so_far, 9), s), t),
        Pure::Le(s, t) => mix_term(mix_term(mix(so_far, 10), s), t),
        Pure::Lt(s, t) => mix_term(mix_term(mix(so_far, 11), s), t),
        Pure::And(a, b) => mix_pure(mix_pure(mix(so_far, 12), a.get()), b.get()),
        Pure::Or(a, b) => mix_pure(mix_pure(mix(so_far, 13), a.get()), b.get()),
        Pure::Not(a) => mix_pure(mix(so_far, 14), a.get()),
    }
}

fn mix_formula(so_far: u64, f: &Formula) -> u64 {
    match f {
        Formula::Pure(p) => mix_pure(so_far, p),
        Formula::Sep(a, b) => mix_formula(mix_formula(mix(so_far, 15), a.get()), b.get()),
        Formula::Wand(a, b) => mix_formula(mix_formula(mix(so_far, 16), a.get()), b.get()),
        Formula::And(a, b) => mix_formula(mix_formula(mix(so_far, 17), a.get()), b.get()),
        Formula::Or(a, b) => mix_formula(mix_formula(mix(so_far, 18), a.get()), b.get()),
        Formula::Imp(a, b) => mix_formula(mix_formula(mix(so_far, 19), a.get()), b.get()),
        Formula::All(a) => mix_formula(mix(so_far, 20), a.get()),
        Formula::Ex(a) => mix_formula(mix(so_far, 21), a.get()),
        Formula::Later(a) => mix_formula(mix(so_far, 22), a.get()),
        Formula::Pers(a) => mix_formula(mix(so_far, 23), a.get()),
        Formula::Upd(a) => mix_formula(mix(so_far, 24), a.get()),
        Formula::Pts { loc, units, val } => {
            let at = mix_term(mix(so_far, 25), loc);
            mix_term(mix(at, u64::from(*units)), val)
        }
        Formula::Call { pred, args } => {
            mix_terms(mix(mix(so_far, 26), u64::from(*pred)), args.as_slice())
        }
    }
}
