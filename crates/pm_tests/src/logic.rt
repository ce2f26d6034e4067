//! Trees: scope, classes, what is put in for their variables, depth, copies; names and lists.

ghost use Rattle.std.specs.Prelude.{◌≡◌, ◌+◌, ◌≤◌, length};
ghost use Rattle.pm_logic.specs.Bounds.{past_indices, IsBounded};
ghost use Rattle.pm_logic.specs.Scope.{TermScoped, TermsScoped, ScopedIn};
ghost use Rattle.pm_logic.specs.Size.{depth_of};

use crate::given::{table, truth};
use pm_logic::{
    BOUND, Bytes, Formula, List, Memory, Name, Pred, Preds, Pure, Term, UNIT, abstract_term, add,
    all, copy, copy_name, depth, ex, guarded, is_opened, is_shift, is_subst, later, nodes, opened,
    persistent, same, scoped, shift, subst, timeless,
};
use std::alloc::Global;
use std::process::Abort;
use std::test::Fail;

const AMPLE: &str = "memory is ample";

fn points(loc: u32, units: u32) -> Formula {
    Formula::Pts {
        loc: Term::Var(loc),
        units,
        val: Term::Lit(5),
    }
}

/// Index `i` is equal to 0.
fn is_zero(i: u32) -> Formula {
    Formula::Pure(Pure::Eq(Term::Var(i), Term::Lit(0)))
}

/// Under two binders: the term is equal to index `i`.
fn equation(alloc: Global, t: Term, i: u32) -> Result<Formula, Memory> {
    let equal = Formula::Pure(Pure::Eq(t, Term::Var(i)));
    all(alloc, ex(alloc, equal)?)
}

/// Under two binders: the sum of index 0 and the one is equal to the other.
fn sum(alloc: Global, i: u32, j: u32) -> Result<Formula, Memory> {
    let sum = add(alloc, Term::Var(0), Term::Var(j))?;
    equation(alloc, sum, i)
}

fn call(alloc: Global, pred: u32, count: u32) -> Result<Formula, Memory> {
    let mut args = List::new(alloc);
    for _i in 0..count {
        args.push(Term::Var(0))?;
    }
    Ok(Formula::Call { pred, args })
}

/// Whether the formula is scoped in two predicates of one parameter.
fn is_scoped(rt: &impl Abort, alloc: Global, k: u32, f: &Formula) -> Result<bool, Memory> {
    let preds = table(alloc, &[("p", 1), ("q", 1)])?;
    let deep = depth(f);
    assert!(rt; deep <= BOUND);
    assert!(rt; k <= BOUND - deep);
    Ok(scoped(&preds, k, f))
}

#[test]
fn scopes(rt: HostRuntime) -> Result<(), Fail> {
    let most = BOUND - 3;
    for (index, expected) in [(BOUND - 4, true), (BOUND - 3, false)] {
        assert!(rt; is_scoped(&rt, rt.alloc(), most, &is_zero(index))? == expected);
    }
    for (units, expected) in [(0, false), (1, true), (UNIT, true), (UNIT + 1, false)] {
        assert!(rt; is_scoped(&rt, rt.alloc(), 1, &points(0, units))? == expected);
    }
    for (index, expected) in [(2, true), (3, false)] {
        let f = sum(rt.alloc(), index, 1)?;
        assert!(rt; is_scoped(&rt, rt.alloc(), 1, &f)? == expected);
    }
    for (pred, count, expected) in [(1, 1, true), (1, 2, false), (2, 1, false)] {
        let f = call(rt.alloc(), pred, count)?;
        assert!(rt; is_scoped(&rt, rt.alloc(), 1, &f)? == expected);
    }
    Ok(())
}

#[test]
fn classes(rt: HostRuntime) -> Result<(), Fail> {
    let later_truth = later(rt.alloc(), truth())?;
    let pts = points(0, 1);
    assert!(rt; persistent(&later_truth) && !persistent(&pts));
    assert!(rt; timeless(&pts) && !timeless(&later_truth));
    Ok(())
}

/// Ends the test unless the formula is scoped in `k` variables, without calls, and within the bound.
#[tactic(auto, using(pm_logic::proofs::Substitutions::bounded))]
fn expect_scoped(rt: &impl Abort, alloc: Global, k: u32, f: &Formula)
    ensures scoped { ScopedIn k f.now }
    ensures size { k + depth_of f.now ≤ BOUND }
    ensures bounded { IsBounded f.now }
{
    let preds = Preds {
        list: List::new(alloc),
    };
    let deep = depth(f);
    assert!(rt; deep <= BOUND);
    assert!(rt; k <= BOUND - deep);
    assert!(rt; scoped(&preds, k, f));
}

/// The terms are variables, the first of index `i`.
#[tactic(auto, using(pm_logic::proofs::Small::two_terms))]
fn two_terms(rt: &impl Abort, alloc: Global, i: u32) -> List<Term>
    ensures count { length result ≡ 2 }
    ensures small { TermsScoped past_indices result }
{
    assert!(rt; i <= BOUND);
    let mut terms = List::new(alloc);
    terms.push(Term::Var(i)).expect(rt, AMPLE);
    terms.push(Term::Var(9)).expect(rt, AMPLE);
    terms
}

/// A variable.
#[tactic(auto, using(pm_logic::proofs::Small::small_var))]
fn variable(rt: &impl Abort, i: u32) -> Term
    ensures { TermScoped past_indices result }
{
    assert!(rt; i <= BOUND);
    Term::Var(i)
}

fn substituted(rt: &impl Abort, alloc: Global, f: &Formula, i: u32) -> Result<Formula, Memory> {
    expect_scoped(rt, alloc, 2, f);
    subst(alloc, f, &two_terms(rt, alloc, i))
}

fn is_substituted(rt: &impl Abort, alloc: Global, f: &Formula, g: &Formula) -> bool {
    expect_scoped(rt, alloc, 2, f);
    is_subst(f, &two_terms(rt, alloc, 5), g)
}

/// Two free variables, under two binders.
fn example(alloc: Global) -> Result<Formula, Memory> {
    sum(alloc, 2, 3)
}

#[test]
fn substitutes(rt: HostRuntime) -> Result<(), Fail> {
    let alloc = rt.alloc();
    let f = example(alloc)?;
    for (index, first) in [(5, 7), (BOUND, BOUND + 2)] {
        let found = substituted(&rt, alloc, &f, index)?;
        assert!(rt; same(&found, &sum(alloc, first, 11)?));
    }
    for (first, second, expected) in [(7, 11, true), (5, 9, false), (u32::MAX, 11, false)] {
        let g = sum(alloc, first, second)?;
        assert!(rt; is_substituted(&rt, alloc, &f, &g) == expected);
    }
    Ok(())
}

fn shifted(rt: &impl Abort, alloc: Global, k: u32, f: &Formula) -> Result<Formula, Memory> {
    expect_scoped(rt, alloc, k, f);
    shift(alloc, f)
}

fn is_shifted(rt: &impl Abort, f: &Formula, g: &Formula) -> bool {
    assert!(rt; depth(f) <= BOUND);
    is_shift(f, g)
}

#[test]
fn shifts(rt: HostRuntime) -> Result<(), Fail> {
    let alloc = rt.alloc();
    let f = example(alloc)?;
    let g = sum(alloc, 3, 4)?;
    assert!(rt; same(&shifted(&rt, alloc, 2, &f)?, &g));
    let found = shifted(&rt, alloc, BOUND - 2, &points(BOUND - 3, 1))?;
    assert!(rt; same(&found, &points(BOUND - 2, 1)));
    assert!(rt; is_shifted(&rt, &f, &g) && !is_shifted(&rt, &f, &sum(alloc, 2, 4)?));
    let rows = [
        (BOUND - 1, BOUND, true),
        (u32::MAX - 1, u32::MAX, true),
        (u32::MAX, 0, false),
        (0, u32::MAX, false),
    ];
    for (first, second, expected) in rows {
        assert!(rt; is_shifted(&rt, &points(first, 1), &points(second, 1)) == expected);
    }
    Ok(())
}

fn opened_at(rt: &impl Abort, alloc: Global, f: &Formula, i: u32) -> Result<Formula, Memory> {
    expect_scoped(rt, alloc, 2, f);
    opened(alloc, f, &variable(rt, i))
}

fn is_opened_at(rt: &impl Abort, f: &Formula, i: u32, g: &Formula) -> bool {
    assert!(rt; depth(f) <= BOUND);
    is_opened(f, &Term::Var(i), g)
}

#[test]
fn opens(rt: HostRuntime) -> Result<(), Fail> {
    let alloc = rt.alloc();
    let f = example(alloc)?;
    for (index, first) in [(6, 8), (BOUND, BOUND + 2)] {
        let found = opened_at(&rt, alloc, &f, index)?;
        assert!(rt; same(&found, &sum(alloc, first, 2)?));
    }
    for (index, first, expected) in [(6, 8, true), (6, 6, false), (u32::MAX, 1, false)] {
        let g = sum(alloc, first, 2)?;
        assert!(rt; is_opened_at(&rt, &f, index, &g) == expected);
    }
    assert!(rt; !is_opened_at(&rt, &points(0, 1), 6, &points(u32::MAX, 1)));
    Ok(())
}

fn abstracted(rt: &impl Abort, alloc: Global, f: &Formula, s: &Term) -> Result<Formula, Memory>
    requires { TermScoped past_indices s.now }
{
    expect_scoped(rt, alloc, 2, f);
    abstract_term(alloc, f, s)
}

/// The sum of two indices.
#[tactic(auto, using(pm_logic::proofs::Small::small_terms))]
fn plus(rt: &impl Abort, alloc: Global, i: u32, j: u32) -> Term
    ensures { TermScoped past_indices result }
{
    let first = variable(rt, i);
    let second = variable(rt, j);
    add(alloc, first, second).expect(rt, AMPLE)
}

#[test]
fn abstracts(rt: HostRuntime) -> Result<(), Fail> {
    let alloc = rt.alloc();
    let f = example(alloc)?;
    for (index, second) in [(1, 2), (BOUND, 4)] {
        let found = abstracted(&rt, alloc, &f, &variable(&rt, index))?;
        assert!(rt; same(&found, &sum(alloc, 3, second)?));
    }
    let free = equation(alloc, plus(&rt, alloc, 2, 3), 3)?;
    let found = abstracted(&rt, alloc, &free, &plus(&rt, alloc, 0, 1))?;
    assert!(rt; same(&found, &equation(alloc, Term::Var(2), 4)?));
    let found = abstracted(&rt, alloc, &free, &plus(&rt, alloc, 0, 2))?;
    assert!(rt; same(&found, &equation(alloc, plus(&rt, alloc, 3, 4), 4)?));
    Ok(())
}

/// Index `i` is 0, under 997 binders or 997 laters: 1,000 levels.
fn chain(alloc: Global, binds: bool, i: u32) -> Result<Formula, Memory> {
    let mut f = is_zero(i);
    for _i in 0..997 {
        f = if binds {
            all(alloc, f)?
        } else {
            later(alloc, f)?
        };
    }
    Ok(f)
}

/// The free index 0 of the chain is `i` in the tree.
fn tests_deep(rt: &impl Abort, alloc: Global, binds: bool, i: u32) -> Result<(), Memory> {
    let f = chain(alloc, binds, i)?;
    assert!(rt; depth(&f) == 1000 && nodes(&f) == 1001);
    assert!(rt; is_scoped(rt, alloc, 1, &f)? && !is_scoped(rt, alloc, 0, &f)?);
    assert!(rt; persistent(&f));
    let other = copy(alloc, &f)?;
    assert!(rt; same(&other, &f));
    Ok(())
}

/// What is put in for the free index.
fn changes_deep(rt: &impl Abort, alloc: Global, binds: bool, i: u32) -> Result<(), Memory>
    requires { i ≤ 1000 }
{
    let f = chain(alloc, binds, i)?;
    let one_up = chain(alloc, binds, i + 1)?;
    assert!(rt; same(&shifted(rt, alloc, 1, &f)?, &one_up) && is_shifted(rt, &f, &one_up));
    let fifth = chain(alloc, binds, i + 5)?;
    assert!(rt; same(&substituted(rt, alloc, &f, 5)?, &fifth));
    assert!(rt; is_substituted(rt, alloc, &f, &fifth));
    let sixth = chain(alloc, binds, i + 6)?;
    assert!(rt; same(&opened_at(rt, alloc, &f, 6)?, &sixth) && is_opened_at(rt, &f, 6, &sixth));
    Ok(())
}

#[test]
fn goes_deep(rt: HostRuntime) -> Result<(), Fail> {
    tests_deep(&rt, rt.alloc(), false, 0)?;
    changes_deep(&rt, rt.alloc(), false, 0)?;
    tests_deep(&rt, rt.alloc(), true, 997)?;
    changes_deep(&rt, rt.alloc(), true, 997)?;
    Ok(())
}

/// A predicate's body of 1,000 levels.
#[test]
fn guards_deep(rt: HostRuntime) -> Result<(), Fail> {
    let mut preds = table(rt.alloc(), &[])?;
    for binds in [false, true] {
        let body = chain(rt.alloc(), binds, 0)?;
        let name = Name::new(rt.alloc(), "p")?;
        preds.list.push(Pred {
            name,
            arity: 1,
            body,
        })?;
    }
    assert!(rt; preds.list.len() == 2);
    assert!(rt; guarded(&preds, 0) && guarded(&preds, 1));
    Ok(())
}

#[test]
fn spellings(rt: HostRuntime) -> Result<(), Fail> {
    let alloc = rt.alloc();
    let list = Name::new(alloc, "list")?;
    assert!(rt; list.bytes() == b"list".as_slice());
    let tree = Name::from_bytes(alloc, b"tree")?;
    assert!(rt; tree.bytes() == b"tree".as_slice());
    let other = copy_name(alloc, &tree)?;
    assert!(rt; other.bytes() == b"tree".as_slice());
    Ok(())
}

#[test]
fn lists(rt: HostRuntime) -> Result<(), Fail> {
    let mut bytes = Bytes::new(rt.alloc());
    assert!(rt; bytes.is_empty());
    bytes.push(7)?;
    bytes.extend(&[8, 9])?;
    assert!(rt; !bytes.is_empty() && bytes.len() == 3);
    assert!(rt; bytes.as_slice() == [7, 8, 9].as_slice());
    assert!(rt; matches!(bytes.get(2), Some(&9)) && matches!(bytes.get(3), None));
    let slice = Bytes::from_slice(rt.alloc(), &[1, 2])?;
    assert!(rt; slice.as_slice() == [1, 2].as_slice());
    Ok(())
}
