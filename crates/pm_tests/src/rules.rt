//! Of each of the 67 rules lines that follow, and lines that don't.

use crate::given::answers;
use pm_logic::Memory;
use pm_rules::{Rule, premise_count};
use pm_top::Status;
use std::alloc::Global;
use std::process::Abort;
use std::test::Fail;

/// One predicate, whose body is in its parameter.
const TABLE: &str = "mosel-derivation 1\narities 1\npred p pure eq v0 0\n";

/// What is written for the table where the lines follow.
const LINES: &str = "Predicate p(_0) := ⌜_0 = 0⌝.\naccepted: 0 statements\n";

/// Behind two spaces a premise of the next lines. Behind `+` a line that follows, and behind a number one that doesn't, by
/// this condition of its rule. A line of number 1 has no premises.
const RULES: &str = "\
+ 1 refl 0 pts 0 1 0 pts 0 1 0
4 1 refl 0 pts 0 1 0 pts 1 1 1
  1 refl 0 pts 0 1 0 pts 0 1 0
+ 2 trans 0 1 1 pts 0 1 0 pts 0 1 0
4 2 trans 0 1 1 pts 0 1 0 pts 1 1 1
  1 refl 1 pure eq v0 v0 pure eq v0 v0
+ 2 inst 0 1 1 5 pure eq 5 5 pure eq 5 5
3 2 inst 0 1 2 5 6 pure eq 5 5 pure eq 5 5
+ 1 true 0 pts 0 1 0 pure T
4 1 true 0 pts 0 1 0 pure F
+ 1 false 0 pure F pts 0 1 0
4 1 false 0 pure T pts 0 1 0
  1 refl 1 pure eq v0 1 pure eq v0 1
+ 2 inst 1 1 1 v0 pure eq v0 1 pure eq v0 1
  1 refl 2 pure eq v0 1 pure eq v0 1
3 2 inst 1 1 1 v0 pure eq v0 1 pure eq v0 1
+ 1 and-l 0 and pts 0 1 0 pts 1 1 1 pts 0 1 0
4 1 and-l 0 and pts 0 1 0 pts 1 1 1 pts 1 1 1
+ 1 and-r 0 and pts 0 1 0 pts 1 1 1 pts 1 1 1
4 1 and-r 0 and pts 0 1 0 pts 1 1 1 pts 0 1 0
  1 refl 0 pts 0 1 0 pts 0 1 0
+ 2 and-i 0 1 1 pts 0 1 0 and pts 0 1 0 pts 0 1 0
4 2 and-i 0 1 1 pts 0 1 0 and pts 0 1 0 pts 1 1 1
+ 1 or-l 0 pts 0 1 0 or pts 0 1 0 pts 1 1 1
4 1 or-l 0 pts 1 1 1 or pts 0 1 0 pts 1 1 1
+ 1 or-r 0 pts 1 1 1 or pts 0 1 0 pts 1 1 1
4 1 or-r 0 pts 0 1 0 or pts 0 1 0 pts 1 1 1
  1 refl 0 pts 0 1 0 pts 0 1 0
+ 2 or-e 0 1 1 or pts 0 1 0 pts 0 1 0 pts 0 1 0
4 2 or-e 0 1 1 or pts 0 1 0 pts 1 1 1 pts 0 1 0
  1 and-l 0 and pts 0 1 0 pts 1 1 1 pts 0 1 0
+ 2 imp-i 0 1 pts 0 1 0 imp pts 1 1 1 pts 0 1 0
4 2 imp-i 0 1 pts 0 1 0 imp pts 0 1 0 pts 1 1 1
  1 refl 0 imp pts 0 1 0 pts 1 1 1 imp pts 0 1 0 pts 1 1 1
+ 2 imp-e 0 1 and imp pts 0 1 0 pts 1 1 1 pts 0 1 0 pts 1 1 1
4 2 imp-e 0 1 and pts 0 1 0 imp pts 0 1 0 pts 1 1 1 pts 1 1 1
  1 refl 2 pure eq v1 0 pure eq v1 0
+ 2 all-i 1 1 pure eq v0 0 all pure eq v1 0
  1 refl 2 pure eq v0 0 pure eq v0 0
4 2 all-i 1 1 pure eq v0 0 all pure eq v0 0
+ 1 all-e 0 5 all pure eq v0 v0 pure eq 5 5
4 1 all-e 0 5 all pure eq v0 v0 pure eq 5 6
+ 1 ex-i 0 5 pure eq 5 5 ex pure eq v0 v0
4 1 ex-i 0 5 pure eq 5 6 ex pure eq v0 v0
  1 true 1 pure eq v0 0 pure T
+ 2 ex-e 0 1 ex pure eq v0 0 pure T
  1 refl 2 pure eq v0 0 pure eq v0 0
4 2 ex-e 1 1 ex pure eq v0 0 pure eq v0 0
  1 true 1 pure T pure T
+ 2 all-i 0 1 pure T all pure T
  1 true 2 pure T pure T
2 2 all-i 0 1 pure T all pure T
  1 refl 0 pts 0 1 0 pts 0 1 0
  2 refl 0 pts 1 1 1 pts 1 1 1
+ 3 sep-mono 0 1 2 sep pts 0 1 0 pts 1 1 1 sep pts 0 1 0 pts 1 1 1
4 3 sep-mono 0 1 2 sep pts 0 1 0 pts 1 1 1 sep pts 1 1 1 pts 0 1 0
+ 1 sep-comm 0 sep pts 0 1 0 pts 1 1 1 sep pts 1 1 1 pts 0 1 0
4 1 sep-comm 0 sep pts 0 1 0 pts 1 1 1 sep pts 0 1 0 pts 1 1 1
+ 1 sep-assoc-r 0 sep sep pts 0 1 0 pts 1 1 1 pts 2 1 2 sep pts 0 1 0 sep pts 1 1 1 pts 2 1 2
4 1 sep-assoc-r 0 sep pts 0 1 0 sep pts 1 1 1 pts 2 1 2 sep sep pts 0 1 0 pts 1 1 1 pts 2 1 2
+ 1 sep-assoc-l 0 sep pts 0 1 0 sep pts 1 1 1 pts 2 1 2 sep sep pts 0 1 0 pts 1 1 1 pts 2 1 2
4 1 sep-assoc-l 0 sep sep pts 0 1 0 pts 1 1 1 pts 2 1 2 sep pts 0 1 0 sep pts 1 1 1 pts 2 1 2
+ 1 sep-unit 0 pts 0 1 0 sep pure T pts 0 1 0
4 1 sep-unit 0 pts 0 1 0 sep pts 0 1 0 pure T
+ 1 sep-weaken 0 sep pts 0 1 0 pts 1 1 1 pts 0 1 0
4 1 sep-weaken 0 pts 0 1 0 sep pts 0 1 0 pts 0 1 0
  1 sep-weaken 0 sep pts 0 1 0 pts 1 1 1 pts 0 1 0
+ 2 wand-i 0 1 pts 0 1 0 wand pts 1 1 1 pts 0 1 0
4 2 wand-i 0 1 pts 1 1 1 wand pts 0 1 0 pts 0 1 0
  1 refl 0 wand pts 0 1 0 pts 1 1 1 wand pts 0 1 0 pts 1 1 1
+ 2 wand-e 0 1 sep wand pts 0 1 0 pts 1 1 1 pts 0 1 0 pts 1 1 1
4 2 wand-e 0 1 sep pts 0 1 0 wand pts 0 1 0 pts 1 1 1 pts 1 1 1
  1 refl 0 pts 0 1 0 pts 0 1 0
+ 2 later-mono 0 1 later pts 0 1 0 later pts 0 1 0
4 2 later-mono 0 1 later pts 0 1 0 pts 0 1 0
+ 1 later-intro 0 pts 0 1 0 later pts 0 1 0
4 1 later-intro 0 later pts 0 1 0 pts 0 1 0
+ 1 loeb 0 imp later pts 0 1 0 pts 0 1 0 pts 0 1 0
4 1 loeb 0 imp pts 0 1 0 pts 0 1 0 pts 0 1 0
+ 1 later-sep 0 later sep pts 0 1 0 pts 1 1 1 sep later pts 0 1 0 later pts 1 1 1
4 1 later-sep 0 sep later pts 0 1 0 later pts 1 1 1 later sep pts 0 1 0 pts 1 1 1
+ 1 sep-later 0 sep later pts 0 1 0 later pts 1 1 1 later sep pts 0 1 0 pts 1 1 1
4 1 sep-later 0 later sep pts 0 1 0 pts 1 1 1 sep later pts 0 1 0 later pts 1 1 1
+ 1 later-and 0 and later pts 0 1 0 later pts 1 1 1 later and pts 0 1 0 pts 1 1 1
4 1 later-and 0 and later pts 0 1 0 later pts 1 1 1 later and pts 1 1 1 pts 0 1 0
+ 1 later-or 0 later or pts 0 1 0 pts 1 1 1 or later pts 0 1 0 later pts 1 1 1
4 1 later-or 0 later or pts 0 1 0 pts 1 1 1 or later pts 1 1 1 later pts 0 1 0
+ 1 later-all 0 all later pure eq v0 0 later all pure eq v0 0
4 1 later-all 0 later all pure eq v0 0 all later pure eq v0 0
+ 1 later-ex 0 later ex pure eq v0 0 ex later pure eq v0 0
4 1 later-ex 0 ex later pure eq v0 0 later ex pure eq v0 0
  1 refl 0 pts 0 1 0 pts 0 1 0
+ 2 pers-mono 0 1 pers pts 0 1 0 pers pts 0 1 0
4 2 pers-mono 0 1 pers pts 0 1 0 pts 0 1 0
+ 1 pers-elim 0 pers pts 0 1 0 pts 0 1 0
4 1 pers-elim 0 pts 0 1 0 pers pts 0 1 0
+ 1 pers-idem 0 pers pts 0 1 0 pers pers pts 0 1 0
4 1 pers-idem 0 pts 0 1 0 pers pts 0 1 0
+ 1 pers-dup 0 and pers pts 0 1 0 pts 1 1 1 sep pers pts 0 1 0 pts 1 1 1
4 1 pers-dup 0 and pts 0 1 0 pts 1 1 1 sep pts 0 1 0 pts 1 1 1
+ 1 pers-pure 0 pure T pers pure T
4 1 pers-pure 0 pts 0 1 0 pers pts 0 1 0
+ 1 pers-and 0 and pers pts 0 1 0 pers pts 1 1 1 pers and pts 0 1 0 pts 1 1 1
4 1 pers-and 0 and pers pts 0 1 0 pers pts 1 1 1 pers and pts 1 1 1 pts 0 1 0
+ 1 pers-or 0 pers or pts 0 1 0 pts 1 1 1 or pers pts 0 1 0 pers pts 1 1 1
4 1 pers-or 0 pers or pts 0 1 0 pts 1 1 1 or pers pts 1 1 1 pers pts 0 1 0
+ 1 pers-all 0 all pers pure eq v0 0 pers all pure eq v0 0
4 1 pers-all 0 pers all pure eq v0 0 all pers pure eq v0 0
+ 1 pers-ex 0 pers ex pure eq v0 0 ex pers pure eq v0 0
4 1 pers-ex 0 ex pers pure eq v0 0 pers ex pure eq v0 0
+ 1 pers-later 0 pers later pts 0 1 0 later pers pts 0 1 0
4 1 pers-later 0 later pers pts 0 1 0 pers later pts 0 1 0
+ 1 later-pers 0 later pers pts 0 1 0 pers later pts 0 1 0
4 1 later-pers 0 pers later pts 0 1 0 later pers pts 0 1 0
  1 refl 0 pts 0 1 0 pts 0 1 0
+ 2 upd-mono 0 1 upd pts 0 1 0 upd pts 0 1 0
4 2 upd-mono 0 1 upd pts 0 1 0 pts 0 1 0
+ 1 upd-intro 0 pts 0 1 0 upd pts 0 1 0
4 1 upd-intro 0 upd pts 0 1 0 pts 0 1 0
+ 1 upd-trans 0 upd upd pts 0 1 0 upd pts 0 1 0
4 1 upd-trans 0 upd pts 0 1 0 upd upd pts 0 1 0
+ 1 upd-frame 0 sep pts 1 1 1 upd pts 0 1 0 upd sep pts 1 1 1 pts 0 1 0
4 1 upd-frame 0 sep upd pts 0 1 0 pts 1 1 1 upd sep pts 0 1 0 pts 1 1 1
+ 1 upd-pure 0 upd pure T pure T
4 1 upd-pure 0 upd pts 0 1 0 pts 0 1 0
+ 1 pure-and 0 pure cj T F and pure T pure F
4 1 pure-and 0 pure cj T F and pure F pure T
+ 1 and-pure 0 and pure T pure F pure cj T F
4 1 and-pure 0 and pure T pure F pure cj F T
+ 1 pure-or 0 pure dj T F or pure T pure F
4 1 pure-or 0 pure dj T F or pure F pure T
+ 1 or-pure 0 or pure T pure F pure dj T F
4 1 or-pure 0 or pure T pure F pure dj F T
+ 1 not 0 and pure T pure no T pure F
4 1 not 0 and pure T pure no F pure F
+ 1 em 0 pts 0 1 0 or pure T pure no T
4 1 em 0 pts 0 1 0 or pure T pure no F
+ 1 linear 3 4 1 1 4 1 0 pure cj le v0 add mul 4 v1 v2 cj le v1 3 cj le v2 0 T pure le v0 12
5 1 linear 3 4 1 1 3 1 0 pure cj le v0 add mul 4 v1 v2 cj le v1 3 cj le v2 0 T pure le v0 12
+ 1 rewrite 0 pure eq v0 7 and pure eq 1 2 pure eq 1 7 pure eq 2 7
4 1 rewrite 0 pure eq v0 7 and pure eq 1 2 pure eq 1 7 pure eq 1 7
+ 1 linear 1 2 1 1 0 pure cj lt v0 5 T pure le v0 4
5 1 linear 1 2 1 2 0 pure cj lt v0 5 T pure le v0 4
+ 1 linear 1 2 1 -1 2 1 1 pure cj eq v0 3 T pure eq 3 v0
5 1 linear 1 2 1 1 2 1 1 pure cj eq v0 3 T pure eq 3 v0
+ 1 linear 1 2 1 1 0 pure cj lt v0 5 T pure le v0 4
5 1 linear 1 2 1 -1 0 pure cj lt v0 5 T pure le v0 4
+ 1 pts-split 0 pts 0 3 0 sep pts 0 1 0 pts 0 2 0
4 1 pts-split 0 pts 0 4 0 sep pts 0 1 0 pts 0 2 0
+ 1 pts-join 0 sep pts 0 1 0 pts 0 2 0 pts 0 3 0
4 1 pts-join 0 sep pts 0 720720 0 pts 0 1 0 pts 0 720720 0
+ 1 pts-agree 0 sep pts 0 1 5 pts 0 1 6 pure eq 5 6
4 1 pts-agree 0 sep pts 0 1 5 pts 0 1 6 pure eq 6 5
+ 1 pts-over 0 sep pts 0 720720 5 pts 0 1 6 pure F
5 1 pts-over 0 sep pts 0 720719 5 pts 0 1 6 pure F
+ 1 pts-write 0 pts 0 720720 1 upd pts 0 720720 2
4 1 pts-write 0 pts 0 720719 1 upd pts 0 720720 2
+ 1 pts-new 0 pure T upd ex pts v0 720720 7
4 1 pts-new 0 pure T upd ex pts v0 720719 7
+ 1 pts-join 0 sep pts 7 720718 5 pts 7 2 5 pts 7 720720 5
4 1 pts-join 0 sep pts 7 720720 5 pts 7 2 5 pts 7 720720 5
+ 1 fold 0 pure eq 5 0 call 0 5
4 1 fold 0 pure eq 6 0 call 0 5
+ 1 unfold 0 call 0 5 pure eq 5 0
4 1 unfold 0 call 0 5 pure eq 6 0
+ 1 timeless 0 later pts 0 1 0 or later pure F pts 0 1 0
5 1 timeless 0 later later pts 0 1 0 or later pure F later pts 0 1 0
";

/// Checks lines behind the table.
fn is_judged(
    rt: &impl Abort,
    alloc: Global,
    lines: &str,
    status: Status,
    line: &str,
) -> Result<(), Memory> {
    let text = format!(in alloc; "{TABLE}{lines}")?;
    answers(rt, alloc, "check", text.as_bytes(), status, line)
}

/// Checks a row behind its premises.
fn row_is_judged(
    rt: &impl Abort,
    alloc: Global,
    premises: &str,
    mark: &str,
    row: &str,
) -> Result<(), Memory> {
    let lines = format!(in alloc; "{premises}{row}\n")?;
    if mark == "+" {
        return is_judged(rt, alloc, lines.as_str(), Status::Done, LINES);
    }
    let mut words = row.split(' ');
    let number = words.next().unwrap_or("");
    let rule = words.next().unwrap_or("");
    let line = format!(in alloc; "refused: line {number}: {rule} condition {mark}\n")?;
    is_judged(rt, alloc, lines.as_str(), Status::Refused, line.as_str())
}

#[test]
fn rules(rt: HostRuntime) -> Result<(), Fail> {
    let mut premises = String::new(rt.alloc());
    let mut judged: u32 = 0;
    for line in RULES.lines() {
        let (mark, row) = line.split_once(' ').unwrap_or(("", ""));
        if row.starts_with("1 ") || row.starts_with(" 1 ") {
            premises = String::new(rt.alloc());
        }
        if mark.is_empty() {
            premises.push_str(row.trim_start())?;
            premises.push_str("\n")?;
        } else {
            row_is_judged(&rt, rt.alloc(), premises.as_str(), mark, row)?;
            judged = judged.saturating_add(1);
        }
    }
    assert!(rt; judged == 146);
    Ok(())
}

#[test]
fn premise_counts(rt: HostRuntime) {
    assert!(rt; premise_count(&Rule::Trans) == 2);
    assert!(rt; premise_count(&Rule::PtsNew) == 0);
}
