// A double line's section.
ghost use Rattle.working.specs.declared.Table.TheVariants.{DoubleLine};

use crate::lines::Line;
use double::Section;
use listing::SectionFigures;
use words::{Words, refused};
use working::{Answer, Desk, Read, Table};

impl Line for Section {
    ghost TABLE = { DoubleLine };

    const TABLE: Table = Table::DoubleLine;

    ghost section = { λ s. s };

    ghost told_apart = { λ s t same. same };

    fn answer_to(words: &mut Words, read: Read) -> Answer {
        doubleentering::answer_to(words, read)
    }

    fn section_in(words: &Words) -> Section {
        doubleentering::section_in(words)
    }

    fn words_of(self) -> Words {
        doubleentering::words_of(self)
    }

    fn well_made(self) -> bool {
        doubleentering::well_made(self)
    }

    // Nothing is held or owed on a double line.
    #[tactic(auto, unfolding(doubleentering::specs::DoubleWords::double_in, words::specs::Words::section_in))]
    fn figures(words: &Words) -> SectionFigures {
        let none = Desk::fresh().clears;
        SectionFigures {
            refused: refused(words),
            present: doubleentering::present(words),
            a: none,
            b: none,
        }
    }
}
