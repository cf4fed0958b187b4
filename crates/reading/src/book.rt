// The directory, the sections, and the market.
ghost use Rattle.std.specs.Prelude.{◌≡◌, ◌≤◌, ◌<◌, length};
ghost use Rattle.numbers.specs.Findings.{found};
ghost use Rattle.numbers.specs.Buffers.{PartOf};
ghost use Rattle.reading.specs.Book.{section_offset, section_length, section_end, joined, tiled as tiled_by, check_directory, section_of, market_of};
ghost use Rattle.reading.specs.InnerContracts.{pair_of, market_in, section_start};

use numbers::Refusal;

// The sections, in the order of their pairs.
#[derive(Clone, Copy, Debug, PartialEq, Eq)]
pub enum Section {
    Parameters,
    Vertices,
    Prices,
    Bonds,
    Flows,
    Positions,
}

// All of a book but the directory and the positions.
#[derive(Clone, Copy)]
pub struct Market<'a> {
    pub parameters: &'a [u8],
    pub vertices: &'a [u8],
    pub prices: &'a [u8],
    pub bonds: &'a [u8],
    pub flows: &'a [u8],
}

// The six pairs that open a book.
#[derive(Clone, Copy)]
struct Directory<'a> {
    book: &'a [u8],
    ghost sized: { 48 ≤ length book.now },
}

impl Section {
    // The index of its pair.
    fn pair(self) -> usize
        ensures value { result ≡ pair_of self }
        ensures bound { result < 6 }
    {
        // a From would be a match over all six
        self as usize
    }

    // The bytes of a section, that very part of the book. Empty, and at the book's first byte, where its own pair does not fit the
    // book, or the book has under 48 bytes.
    pub fn of(self, book: &[u8]) -> &[u8]
        ensures { PartOf book.entry result (section_start book.now (pair_of self)) (section_of book.now (pair_of self)) }
    {
        if book.len() < 48 {
            return &book[..0];
        }
        let pairs = Directory { book };
        // no From leads from u32 to usize; a TryFrom would be unwrapped
        numbers::part(
            book,
            pairs.offset(self) as usize,
            pairs.length(self) as usize,
        )
    }
}

impl Directory<'_> {
    // Where a section begins.
    fn offset(&self, section: Section) -> u32
        ensures { result ≡ section_offset self.now.book.now (pair_of section) }
    {
        numbers::u32_at(self.book, 8 * section.pair())
    }

    // How many bytes it has.
    fn length(&self, section: Section) -> u32
        ensures { result ≡ section_length self.now.book.now (pair_of section) }
    {
        numbers::u32_at(self.book, 8 * section.pair() + 4)
    }

    // Where it ends.
    fn end(&self, section: Section) -> u64
        ensures { result ≡ section_end self.now.book.now (pair_of section) }
    {
        u64::from(self.offset(section)) + u64::from(self.length(section))
    }

    // A section starts where the one before it ended.
    fn joined(&self, before: Section, section: Section) -> bool
        ensures { result ≡ joined self.now.book.now (pair_of before) (pair_of section) }
    {
        u64::from(self.offset(section)) == self.end(before)
    }

    // The sections cover the book from byte 48 to its end, one after the other.
    // No From leads from usize to u64, which the last line needs; a TryFrom would be unwrapped.
    fn tiled(&self) -> bool
        ensures { result ≡ tiled_by self.now.book.now }
    {
        (self.offset(Section::Parameters) == 48)
            & (self.joined(Section::Parameters, Section::Vertices)
                & (self.joined(Section::Vertices, Section::Prices)
                    & (self.joined(Section::Prices, Section::Bonds)
                        & (self.joined(Section::Bonds, Section::Flows)
                            & (self.joined(Section::Flows, Section::Positions)
                                & (self.end(Section::Positions) == self.book.len() as u64))))))
    }
}

// Refusals 1 and 2.
pub(crate) fn check_directory(book: &[u8]) -> Result<(), Refusal>
    ensures { found result ≡ check_directory book.now }
{
    if book.len() < 48 {
        return Err(Refusal::ShortBook);
    }
    if !(Directory { book }).tiled() {
        return Err(Refusal::Directory);
    }
    Ok(())
}

impl<'a> Market<'a> {
    // The market of a book.
    pub fn of(book: &'a [u8]) -> Market<'a>
        ensures { market_in result ≡ market_of book.now }
    {
        Market {
            parameters: Section::Parameters.of(book),
            vertices: Section::Vertices.of(book),
            prices: Section::Prices.of(book),
            bonds: Section::Bonds.of(book),
            flows: Section::Flows.of(book),
        }
    }
}
