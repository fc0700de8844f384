// What the step, the running of a log and its listing promise of a single line and of a double line, told of each by itself: every function here is a call of the one that
// takes either line, and what it promises follows from the contract of that one. They stay beside it since the theorems are about these promises (proofs/OfContracts.antt),
// word for word, and since wrong programs that are wrong of one line alone are refused here.
ghost use Rattle.double.specs.Runs as double_runs;
ghost use Rattle.double.specs.Steps.{double};
ghost use Rattle.std.specs.Prelude.{◌≡◌};
ghost use Rattle.step.specs.ListingLines.{FillsWords, ListsIn};
ghost use Rattle.step.specs.Running.{ran_over};
ghost use Rattle.working.specs.Runs.{StepLeaves, StepReturns};
ghost use Rattle.working.specs.Turns.{single, turns_from};

use crate::blocks::{fill, list};
use crate::memory::step_in_place;
use crate::next_line::{Listed, Put};
use crate::running::{Ran, run};
use crate::stepping::step;
use words::Words;
use working::{Answer, Section, Stepped, Table};

pub(crate) fn single_step(s: Section, bytes: &[u8]) -> Stepped<Section>
    ensures { StepReturns s bytes.now result }
{
    step::<Section>(s, bytes)
}

pub(crate) fn single_step_in_place(s: &mut Section, bytes: &[u8]) -> Answer
    ensures { StepLeaves s.old bytes.now result s.new }
{
    step_in_place::<Section>(s, bytes)
}

pub(crate) fn single_run(s: Section, log: &[u8], most: usize) -> Ran<Section>
    ensures { result ≡ ran_over s (turns_from single most s log.now 0) }
{
    run::<Section>(s, log, most)
}

pub(crate) fn single_fill(words: &mut Words, listed: Listed, log: &[u8], block: &mut [u8]) -> Put
    ensures { FillsWords Table.SingleLine log.now words.old listed block.old result words.new block.new }
{
    fill::<Section>(words, listed, log, block)
}

pub(crate) fn single_list(log: &[u8], block: &mut [u8]) -> usize
    ensures { ListsIn Table.SingleLine log.now block.old result block.new }
{
    list::<Section>(log, block)
}

pub(crate) fn double_step(s: double::Section, bytes: &[u8]) -> Stepped<double::Section>
    ensures { double_runs.StepReturns s bytes.now result }
{
    step::<double::Section>(s, bytes)
}

pub(crate) fn double_step_in_place(s: &mut double::Section, bytes: &[u8]) -> Answer
    ensures { double_runs.StepLeaves s.old bytes.now result s.new }
{
    step_in_place::<double::Section>(s, bytes)
}

pub(crate) fn double_run(s: double::Section, log: &[u8], most: usize) -> Ran<double::Section>
    ensures { result ≡ ran_over s (turns_from double most s log.now 0) }
{
    run::<double::Section>(s, log, most)
}

pub(crate) fn double_fill(words: &mut Words, listed: Listed, log: &[u8], block: &mut [u8]) -> Put
    ensures { FillsWords Table.DoubleLine log.now words.old listed block.old result words.new block.new }
{
    fill::<double::Section>(words, listed, log, block)
}

pub(crate) fn double_list(log: &[u8], block: &mut [u8]) -> usize
    ensures { ListsIn Table.DoubleLine log.now block.old result block.new }
{
    list::<double::Section>(log, block)
}
