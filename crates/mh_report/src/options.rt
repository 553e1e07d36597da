//! What a caller may choose.
ghost use Rattle.std.specs.Prelude.{◌≡◌};
ghost use Rattle.std.specs.Option.{option_copied};
ghost use Rattle.mh_report.specs.Reading.{late_of, tags_of};
ghost use Rattle.mh_report.specs.Sealed.{tag_octets};

/// The choices of a check, a play or a conversion, of which each takes what is its own.
#[derive(Drop)]
pub struct Options {
    /// The path of the application to start with, as it was given.
    pub start: Vec<u8>,
    /// The file that names the scenes whose files come late, a name a line; without it none does.
    pub late: Option<Vec<u8>>,
    /// The file that gives the tags of the binary notation, a tag a line; without it they are the profile's.
    pub tags: Option<Vec<u8>>,
    /// The modified Julian day on which the play begins, at most 1,000,000.
    pub mjd: u32,
    /// Whether a service is played whatever the verifier would say of it.
    pub lenient: bool,
}

impl Options {
    /// The file that names late scenes, if there is one.
    pub(crate) fn late(&self) -> Option<&[u8]>
        ensures { option_copied result ≡ late_of self.now }
    {
        match &self.late {
            Some(bytes) => Some(bytes.as_slice()),
            None => None,
        }
    }

    /// The file that gives tags, if there is one.
    pub(crate) fn tags(&self) -> Option<&[u8]>
        ensures { option_copied result ≡ tags_of self.now }
    {
        match &self.tags {
            Some(bytes) => Some(bytes.as_slice()),
            None => None,
        }
    }

    /// The octets of that file; none where there is none.
    pub(crate) fn tag_octets(&self) -> &[u8]
        ensures { result.now ≡ tag_octets self.now }
    {
        match &self.tags {
            Some(bytes) => bytes.as_slice(),
            None => &[],
        }
    }
}
