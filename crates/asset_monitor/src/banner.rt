ghost use Rattle.std.specs.Prelude.{◌≡◌, ◌≤◌, length};
ghost use Rattle.asset_monitor.specs.Banners.{banner_in, is_unseen, banner_number};
ghost use Rattle.asset_monitor.specs.Outputs.{name_of};
ghost use Rattle.asset_monitor.specs.BannerNumbers.{all_banners, banner_of};
ghost use Rattle.asset_monitor.specs.WordRoom.{banner_room};

/// What a service's packets were seen to begin with.
#[derive(Clone, Copy, Debug, PartialEq, Eq, PartialOrd, Ord)]
pub enum Banner {
    /// No banner was seen.
    Unseen,
    /// `SSH-`
    Ssh,
    /// `HTTP/`
    Http,
    /// `220 `, of SMTP and FTP.
    Greeting,
    /// `+OK`
    Pop3,
    /// `* OK`
    Imap,
}

/// The banners by their numbers.
static BANNERS: [Banner; 6] = [
    Banner::Unseen,
    Banner::Ssh,
    Banner::Http,
    Banner::Greeting,
    Banner::Pop3,
    Banner::Imap,
];

impl Banner {
    /// The banner that a payload begins with.
    #[tactic(auto, unfolding(crate::specs::Banners::banner_in))]
    pub fn of_payload(payload: &[u8]) -> Banner
        ensures { result ≡ banner_in payload.now }
    {
        if payload.starts_with(b"SSH-") {
            Banner::Ssh
        } else if payload.starts_with(b"HTTP/") {
            Banner::Http
        } else if payload.starts_with(b"220 ") {
            Banner::Greeting
        } else if payload.starts_with(b"+OK") {
            Banner::Pop3
        } else if payload.starts_with(b"* OK") {
            Banner::Imap
        } else {
            Banner::Unseen
        }
    }

    /// Whether it says that no banner was seen.
    pub fn is_unseen(self) -> bool
        ensures { result ≡ is_unseen self }
    {
        matches!(self, Banner::Unseen)
    }

    /// All banners, by their numbers.
    pub fn all() -> &'static [Banner]
        ensures { result.now ≡ all_banners }
    {
        &BANNERS
    }

    /// The banner with this number in outputs and stored records.
    pub fn numbered(number: u8) -> Option<Banner>
        ensures { result ≡ banner_of number }
    {
        BANNERS.get(usize::from(number)).copied()
    }

    /// The banner's number in outputs and stored records.
    pub fn number(self) -> u8
        ensures { result ≡ banner_number self }
    {
        self as u8
    }

    /// The banner's name.
    pub fn name(self) -> &'static str
        ensures name { result.now ≡ name_of self }
        ensures short { length result.now ≤ banner_room }
    {
        match self {
            Banner::Unseen => "-",
            Banner::Ssh => "ssh",
            Banner::Http => "http",
            Banner::Greeting => "greeting",
            Banner::Pop3 => "pop3",
            Banner::Imap => "imap",
        }
    }
}
