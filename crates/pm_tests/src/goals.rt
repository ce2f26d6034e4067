//! Goals: their names, their left sides, copies, contexts and rows of refusal.

ghost use Rattle.std.specs.Prelude.{◌≡◌, [], length, IfOk};

use crate::given::truth;
use pm_goal::{
    Ctx, Fact, Facts, Found, Goal, Held, Hyp, Kind, Row, Work, copy_work, find, fresh, left_of,
    left_of_work,
};
use pm_logic::{
    Formula, List, Memory, Name, Pure, Term, UNIT, formula_is_i64, pers, same, same_pure, sep,
};
use std::alloc::Global;
use std::process::Abort;
use std::test::Fail;

fn points() -> Formula {
    Formula::Pts {
        loc: Term::Lit(1),
        units: UNIT,
        val: Term::Lit(2),
    }
}

fn one_hyp(alloc: Global, name: &str, formula: Formula) -> Result<Ctx, Memory>
    ensures { IfOk result (λ list. length list ≡ 1) }
{
    let mut ctx = Ctx::new(alloc);
    let name = Name::new(alloc, name)?;
    ctx.push(Hyp { name, formula })?;
    Ok(ctx)
}

/// A goal over two variables, with a hypothesis of each kind.
fn goal(alloc: Global) -> Result<Goal, Memory>
    ensures { IfOk result (λ g. (length g.vars ≡ 2) × (g.pures ≡ []) × (length g.ints ≡ 1) × (length g.spats ≡ 1)) }
{
    let mut vars = List::new(alloc);
    vars.push(Name::new(alloc, "x")?)?;
    vars.push(Name::new(alloc, "y")?)?;
    let ints = one_hyp(alloc, "I", truth())?;
    let spats = one_hyp(alloc, "_H1", points())?;
    Ok(Goal {
        vars,
        pures: Facts::new(alloc),
        ints,
        spats,
        concl: truth(),
    })
}

#[test]
fn names_of_goals(rt: HostRuntime) -> Result<(), Fail> {
    let goal = goal(rt.alloc())?;
    let rows = [
        ("x", Some(Found::Var(1))),
        ("y", Some(Found::Var(0))),
        ("I", Some(Found::Int(0))),
        ("_H1", Some(Found::Spat(0))),
        ("K", None),
    ];
    for (text, expected) in rows {
        let name = Name::new(rt.alloc(), text)?;
        assert!(rt; find(&goal, &name) == expected, "{text}");
    }
    let name = fresh(rt.alloc(), &goal)?;
    assert_eq!(rt; name.bytes(), b"_H2".as_slice());
    Ok(())
}

/// `□ True ∗ 1 ↦ 2 ∗ end`
fn star_of_goal(alloc: Global, end: Formula) -> Result<Formula, Memory> {
    let rest = sep(alloc, points(), end)?;
    let boxed = pers(alloc, truth())?;
    sep(alloc, boxed, rest)
}

#[test]
fn left_sides(rt: HostRuntime) -> Result<(), Fail> {
    let goal = goal(rt.alloc())?;
    let left = left_of(rt.alloc(), &goal)?;
    let expected = star_of_goal(rt.alloc(), truth())?;
    assert!(rt; same(&left, &expected));
    formula_is_i64(&left);
    Ok(())
}

/// That goal with `⌜False⌝` in hand, of the kind of intuitionistic hypotheses.
fn work(alloc: Global) -> Result<Work, Memory> {
    let goal = goal(alloc)?;
    let mut held = List::new(alloc);
    held.push(Held {
        kind: Kind::Int,
        formula: Formula::Pure(Pure::False),
    })?;
    Ok(Work { goal, held })
}

#[test]
fn copies_of_works(rt: HostRuntime) -> Result<(), Fail> {
    let first = work(rt.alloc())?;
    let copy = copy_work(rt.alloc(), &first)?;
    let boxed = pers(rt.alloc(), Formula::Pure(Pure::False))?;
    let end = sep(rt.alloc(), boxed, truth())?;
    let expected = star_of_goal(rt.alloc(), end)?;
    let left = left_of_work(rt.alloc(), &copy)?;
    assert!(rt; same(&left, &expected));
    assert_eq!(rt; copy.goal.vars.len(), 2);
    Ok(())
}

/// `H` and a number
fn numbered(alloc: Global, i: usize) -> Result<Name, Memory> {
    let text = format!(in alloc; "H{i}")?;
    Name::from_bytes(alloc, text.as_bytes())
}

/// Adds it where its name isn't there yet.
fn add(ctx: &mut Ctx, name: Name) -> Result<(), Memory> {
    if ctx.place(&name).is_none() {
        ctx.push(Hyp {
            name,
            formula: truth(),
        })?;
    }
    Ok(())
}

fn is_found(rt: &impl Abort, ctx: &Ctx, name: &Name, place: usize) -> Result<(), Memory> {
    assert!(rt; ctx.place(name) == Some(place));
    let found = ctx.name(place).ok_or(Memory)?;
    assert_eq!(rt; found.bytes(), name.bytes());
    let formula = ctx.formula(place).ok_or(Memory)?;
    assert!(rt; same(formula, &truth()));
    Ok(())
}

#[test]
fn contexts_find_by_name(rt: HostRuntime) -> Result<(), Fail> {
    let mut ctx = Ctx::new(rt.alloc());
    for i in 0..64 {
        let name = numbered(rt.alloc(), i)?;
        add(&mut ctx, name)?;
    }
    assert_eq!(rt; ctx.len(), 64);
    for i in 0..64 {
        let name = numbered(rt.alloc(), i)?;
        is_found(&rt, &ctx, &name, i)?;
    }
    let other = numbered(rt.alloc(), 64)?;
    assert!(rt; ctx.place(&other).is_none());
    assert!(rt; ctx.name(64).is_none());
    Ok(())
}

#[test]
fn facts_find_by_name(rt: HostRuntime) -> Result<(), Fail> {
    let mut facts = Facts::new(rt.alloc());
    let name = numbered(rt.alloc(), 0)?;
    facts.push(Fact {
        name,
        pure: Pure::False,
    })?;
    let name = numbered(rt.alloc(), 0)?;
    assert!(rt; facts.place(&name) == Some(0));
    assert_eq!(rt; facts.len(), 1);
    let pure = facts.pure(0).ok_or(Memory)?;
    assert!(rt; same_pure(pure, &Pure::False));
    let found = facts.name(0).ok_or(Memory)?;
    assert_eq!(rt; found.bytes(), b"H0".as_slice());
    Ok(())
}

#[test]
fn rows_by_letter_and_number(rt: HostRuntime) -> Result<(), Fail> {
    let rows = [
        (Row::NoSuchHypothesis, b'N', 1, true),
        (Row::NoSuchVariable, b'N', 5, true),
        (Row::NoVariableToIntroduce, b'I', 3, false),
        (Row::NotEquation, b'E', 6, false),
        (Row::NoSuchLemma, b'S', 7, true),
        (Row::ConclusionNotReached, b'A', 1, false),
        (Row::VariableMentioned, b'B', 8, false),
        (Row::NothingFramed, b'F', 1, true),
        (Row::ConclusionNotUpdate, b'M', 4, false),
        (Row::NotPredicateBody, b'L', 2, false),
        (Row::NotFullPointsTo, b'H', 1, false),
        (Row::WrongCertificateCount, b'P', 8, false),
        (Row::NotGuarded, b'Q', 7, true),
        (Row::NoGoalInFocus, b'Q', 9, false),
        (Row::TooManyLemmas, b'X', 7, false),
    ];
    for (row, family, number, named) in rows {
        assert!(rt; row.family() == family);
        assert!(rt; row.number() == number);
        assert!(rt; row.gives_name() == named);
    }
    Ok(())
}

#[test]
fn lists_give_their_last_item(rt: HostRuntime) -> Result<(), Fail> {
    let mut list = List::from_slice(rt.alloc(), b"ab")?;
    assert!(rt; list.pop() == Some(b'b'));
    assert!(rt; list.pop() == Some(b'a'));
    assert!(rt; list.pop().is_none());
    Ok(())
}
