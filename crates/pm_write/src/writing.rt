//! Whole proofs as lines, and lists of them as derivations.

ghost use Rattle.std.specs.Prelude.{◌≡◌, ◌<◌, ◌++◌, ◌∷◌, [], List, length, map, reverse, IfOk, OnOk};
ghost use Rattle.pm_logic.specs.declared.formula.Preds.{Preds};
ghost use Rattle.pm_dtext.specs.declared.line.Line.{Line};
ghost use Rattle.pm_dtext.specs.Texts.{arities_of};
ghost use Rattle.pm_proof.specs.Trees.{Tree, conclusion};
ghost use Rattle.pm_proof.specs.Parts.{premises_of};
ghost use Rattle.pm_proof.specs.Valid.{Valid, Fits};
ghost use Rattle.pm_check.specs.Table.{BeginsTable};
ghost use Rattle.pm_check.specs.Derivation.{IsDerivation};
ghost use Rattle.pm_write.specs.Writing.{Keeps, Holds, Reaches, Places, Stand, AreThere, AreRecalled, IsSound};
ghost use Rattle.pm_write.specs.Derived.{States, AreWritable, statement_of};

use crate::recalled::places;
use crate::table::put_table;
use crate::written::{Earlier, Written, take_citations};
use pm_logic::{Bytes, List, Memory, Name, Preds};
use pm_proof::{Branch, Proof, in_order};
use std::alloc::Global;

/// A proof with the name of what it proves.
#[derive(Drop)]
pub struct Named {
    pub name: Name,
    pub proof: Proof,
}

impl Written {
    /// Adds the line of a part, for which the numbers of its premises' lines are taken from the end of `built`, the first
    /// one's last, and adds its number there.
    fn part<'a>(
        &mut self,
        alloc: Global,
        earlier: &[Earlier],
        part: &Branch<'a>,
        built: &mut Vec<u64>,
        recalled: &mut [Option<Earlier<'a>>],
    ) -> Result<(), Memory>
        requires { 0 < length recalled.old }
        ensures length { length recalled.new ≡ length recalled.old }
        ensures lines { OnOk result ((preds : Preds) (lines : List Line) (rest : List Tree) → Holds preds self.old lines → AreThere lines earlier.now → AreRecalled lines recalled.old → IsSound preds part.now → Stand lines (premises_of part.now ++ rest) (reverse built.old.items) → Places preds lines self.new (part.now ∷ rest) (reverse built.new.items) recalled.new) }
    {
        let cited = take_citations(part, built);
        let number = self.place(alloc, earlier, part, cited, recalled)?;
        built.push(number)?;
        Ok(())
    }

    /// Adds the lines of a proof, each behind those of its premises, and answers the number of the last one.
    fn prove(&mut self, alloc: Global, earlier: &[Earlier], proof: &Proof) -> Result<u64, Memory>
        ensures { IfOk result (λ n. (preds : Preds) (base : List Line) → Holds preds self.old base → AreThere base earlier.now → Valid preds proof.now → Fits preds proof.now → Reaches preds base self.new n (conclusion proof.now)) }
    {
        let mut parts = in_order(alloc, proof)?;
        let mut built = Vec::new(alloc);
        let mut recalled = places(alloc, parts.len())?;
        while let Some(part) = parts.pop() {
            self.part(alloc, earlier, &part, &mut built, &mut recalled)?;
        }
        // One is left, the whole proof's.
        match built.pop() {
            Some(number) => Ok(number),
            None => Err(Memory),
        }
    }

    /// Adds the lines of each proof and its statement.
    fn prove_all(&mut self, alloc: Global, proofs: &[Named]) -> Result<(), Memory>
        ensures { OnOk result ((preds : Preds) → AreWritable preds proofs.now → Keeps self.old [] → States preds self.new proofs.now) }
    {
        let mut earlier = Vec::new(alloc);
        for named in proofs {
            let number = self.prove(alloc, earlier.as_slice(), &named.proof)?;
            self.state(alloc, &named.name, number)?;
            let entail = named.proof.conclusion();
            earlier.push(Earlier { entail, number })?;
        }
        Ok(())
    }
}

/// A derivation with this table that states what the proofs prove, under their names and in order. Its lines are those of
/// one proof behind those of the other; of each proof a line stands behind those of its premises. Where a line would say
/// what a line of the same proof says already, that one is mostly cited in its stead. For a hole the line is cited that an
/// earlier proof of the list ends with, the first one that concludes the same. It takes a loop, so that a proof of a million
/// levels needs no deep stack.
///
/// The predicates begin a table. The proofs have names that differ; each is valid under the table, fits lines, and leads from
/// truth, with no variables; each of its holes is the conclusion of an earlier one.
///
/// The error is want of memory, and then there is no text.
pub fn write_derivation(alloc: Global, preds: &Preds, proofs: &List<Named>) -> Result<Bytes, Memory>
    requires table { BeginsTable (arities_of preds.now.list) preds.now.list }
    requires proofs { AreWritable preds.now proofs.now }
    ensures { IfOk result (λ text. IsDerivation text preds.now (map statement_of proofs.now)) }
{
    let mut written = Written::new(alloc);
    written.prove_all(alloc, proofs.as_slice())?;
    let mut text = Bytes::new(alloc);
    put_table(alloc, &mut text, preds.list.as_slice())?;
    text.extend(written.text.as_slice())?;
    Ok(text)
}
