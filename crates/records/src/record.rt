// The fields of a record.
ghost use Rattle.std.specs.Prelude.{◌≡◌};
ghost use Rattle.records.specs.Records.{record_of};
ghost use Rattle.records.specs.Steps.{fields};

/// A record by its fields.
#[derive(Clone, Copy)]
pub(crate) struct Record {
    pub letter: u8,
    pub family: u8,
    pub rule: u8,
    pub spare: u8,
    pub station: u32,
    pub word: u64,
}

/// Numbers are big-endian.
impl From<[u8; 16]> for Record {
    ghost from_gives = { λ bytes r. fields r ≡ record_of bytes };

    fn from(bytes: [u8; 16]) -> Record {
        let [
            letter,
            family,
            rule,
            spare,
            s0,
            s1,
            s2,
            s3,
            w0,
            w1,
            w2,
            w3,
            w4,
            w5,
            w6,
            w7,
        ] = bytes;
        Record {
            letter,
            family,
            rule,
            spare,
            station: u32::from_be_bytes([s0, s1, s2, s3]),
            word: u64::from_be_bytes([w0, w1, w2, w3, w4, w5, w6, w7]),
        }
    }
}
