// A single line's section.
ghost use Rattle.working.specs.declared.Table.TheVariants.{SingleLine};

use crate::lines::Line;
use listing::SectionFigures;
use words::{Words, desk, refused};
use working::{Answer, Read, Section, Station, Table};

impl Line for Section {
    ghost TABLE = { SingleLine };

    const TABLE: Table = Table::SingleLine;

    ghost section = { λ s. s };

    ghost told_apart = { λ s t same. same };

    fn answer_to(words: &mut Words, read: Read) -> Answer {
        entering::answer_to(words, read)
    }

    fn section_in(words: &Words) -> Section {
        words::section_in(words)
    }

    fn words_of(self) -> Words {
        words::words_of(self)
    }

    fn well_made(self) -> bool {
        section::well_made(self)
    }

    fn figures(words: &Words) -> SectionFigures {
        SectionFigures {
            refused: refused(words),
            present: words::present(words),
            a: desk(words, Station::A).clears,
            b: desk(words, Station::B).clears,
        }
    }
}
