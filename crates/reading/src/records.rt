// The form of a section of records of one size.
ghost use Rattle.std.specs.Prelude.{◌≡◌, ◌/◌, ◌%◌, ◌<◌, ◌&&◌, eqb, length};
ghost use Rattle.numbers.specs.Conditions.{within};

// A whole number of records, `least` to `most` of them.
pub fn whole<const SIZE: usize>(section: &[u8], least: usize, most: usize) -> bool
    requires { 0 < SIZE }
    ensures { result ≡ (eqb (length section.now % SIZE) 0 && within least most (length section.now / SIZE)) }
{
    let count = section.len() / SIZE;
    (section.len() % SIZE == 0) & (least..=most).contains(&count)
}
