// The parameters' fields, k, and refusals 3 to 5.
ghost use Rattle.std.specs.Prelude.{◌≡◌, ◌≤◌, length};
ghost use Rattle.numbers.specs.Findings.{found};
ghost use Rattle.reading.specs.Parameters.{lookback as lookback_at, holding_period as holding_period_at, warm_up as warm_up_at, confidence as confidence_at, smoothing as smoothing_at, tail_mode as tail_mode_at, decorrelation as decorrelation_at, parameters_zero, parameters_form, parameters_ranges, history as history_at, tail_count_by, tail_count as tail_count_at, check_parameters};

use numbers::Refusal;

// The parameters by their bytes, which reach past the last field.
#[derive(Clone, Copy)]
pub struct Parameters<'a> {
    pub bytes: &'a [u8],
    ghost sized: { 16 ≤ length bytes.now },
}

impl Parameters<'_> {
    // Lookback LP.
    pub fn lookback(&self) -> u16
        ensures { result ≡ lookback_at self.now.bytes.now }
    {
        numbers::u16_at(self.bytes, 0)
    }

    // Holding period hp.
    pub fn holding_period(&self) -> u8
        ensures { result ≡ holding_period_at self.now.bytes.now }
    {
        self.bytes[2]
    }

    // Warm-up sw.
    pub fn warm_up(&self) -> u8
        ensures { result ≡ warm_up_at self.now.bytes.now }
    {
        self.bytes[3]
    }

    // Confidence, in hundredths of a percent.
    pub fn confidence(&self) -> u16
        ensures { result ≡ confidence_at self.now.bytes.now }
    {
        numbers::u16_at(self.bytes, 4)
    }

    // Smoothing factor, in thousandths.
    pub fn smoothing(&self) -> u16
        ensures { result ≡ smoothing_at self.now.bytes.now }
    {
        numbers::u16_at(self.bytes, 6)
    }

    // Tail: 0 single, 1 double. The byte as it stands, since its range is tested after it is read.
    pub fn tail_mode(&self) -> u8
        ensures { result ≡ tail_mode_at self.now.bytes.now }
    {
        self.bytes[8]
    }

    // Decorrelation parameter p, in percent.
    pub fn decorrelation(&self) -> u8
        ensures { result ≡ decorrelation_at self.now.bytes.now }
    {
        self.bytes[9]
    }

    // How many prices each vertex has: LP + hp + sw.
    pub fn history(&self) -> usize
        ensures value { result ≡ history_at self.now.bytes.now }
        ensures bound { result ≤ 66045 }
    {
        usize::from(self.lookback())
            + usize::from(self.holding_period())
            + usize::from(self.warm_up())
    }

    // The k of the parameters.
    pub fn tail_count(&self) -> u64
        requires { confidence_at self.now.bytes.now ≤ 10000 }
        ensures { result ≡ tail_count_at self.now.bytes.now }
    {
        tail_count_by(self.lookback(), self.confidence())
    }

    // Every field lies in its range. Without the test of the warm-up, which every byte meets, the proof did not close.
    fn in_ranges(&self) -> bool
        ensures { result ≡ parameters_ranges self.now.bytes.now }
    {
        (1..=1024).contains(&self.lookback())
            & ((1..=10).contains(&self.holding_period())
                & ((self.warm_up() <= 255)
                    & ((5000..=9999).contains(&self.confidence())
                        & ((1..=999).contains(&self.smoothing())
                            & ((self.tail_mode() <= 1) & (self.decorrelation() <= 100))))))
    }
}

// k for a lookback and a confidence.
pub(crate) fn tail_count_by(lookback: u16, confidence: u16) -> u64
    requires { confidence ≤ 10000 }
    ensures { result ≡ tail_count_by lookback confidence }
{
    let k = numbers::nearest_down(u64::from(lookback) * u64::from(10000 - confidence), 10000);
    k.max(1)
}

// The six last bytes are 0. One by one, as the definition has them, so that the check proves it with no answer.
fn zero_bytes(bytes: &[u8]) -> bool
    requires { 16 ≤ length bytes.now }
    ensures { result ≡ parameters_zero bytes.now }
{
    (bytes[10] == 0)
        & ((bytes[11] == 0)
            & ((bytes[12] == 0) & ((bytes[13] == 0) & ((bytes[14] == 0) & (bytes[15] == 0)))))
}

// The length and the zero bytes are right.
fn form(bytes: &[u8]) -> bool
    ensures { result ≡ parameters_form bytes.now }
{
    if bytes.len() == 16 {
        zero_bytes(bytes)
    } else {
        false
    }
}

// Refusals 3, 4 and 5.
pub(crate) fn check_parameters(bytes: &[u8]) -> Result<(), Refusal>
    ensures { found result ≡ check_parameters bytes.now }
{
    if !form(bytes) {
        return Err(Refusal::ParameterBytes);
    }
    let parameters = Parameters { bytes };
    if !parameters.in_ranges() {
        return Err(Refusal::ParameterRange);
    }
    if 16 < parameters.tail_count() {
        return Err(Refusal::TailCount);
    }
    Ok(())
}
