use std::fmt;

/// An option whose value has a form of its own.
#[derive(Clone, Copy, Debug, PartialEq, Eq)]
pub enum StartOption {
    Endpoints,
    ListenAddr,
    Workers,
    SessionTtl,
    MessageLimit,
    MaxConnections,
    MetricsAddr,
}

impl fmt::Display for StartOption {
    ghost use Rattle.std.specs.Prelude.{Some};
    ghost use Rattle.start_words.specs.Texts.{option_text};

    ghost output = { λ option. Some (option_text option) };

    fn fmt<W: fmt::Write>(&self, f: &mut fmt::Formatter<W>) -> fmt::Result {
        f.write_str(match self {
            StartOption::Endpoints => "--endpoints",
            StartOption::ListenAddr => "--listen-addr",
            StartOption::Workers => "--workers",
            StartOption::SessionTtl => "--session-ttl",
            StartOption::MessageLimit => "--message-limit",
            StartOption::MaxConnections => "--max-connections",
            StartOption::MetricsAddr => "--metrics-addr",
        })
    }
}

/// Why the value of an option is refused.
#[derive(Clone, Copy, Debug, PartialEq, Eq)]
pub enum Cause {
    /// It isn't `host:port` with a host of letters, digits, `.` and `-` and a port from 1 to 65,535.
    NotAnAddress,
    /// It begins with `https://`, which isn't served.
    IsSecure,
    /// It has more than nine endpoints.
    TooMany,
    /// It isn't a number in canonical decimal from `low` to `high`.
    NotANumber { low: u64, high: u64 },
}

impl fmt::Display for Cause {
    ghost use Rattle.std.specs.Prelude.{Some};
    ghost use Rattle.start_words.specs.Texts.{cause_text};

    ghost output = { λ cause. Some (cause_text cause) };

    fn fmt<W: fmt::Write>(&self, f: &mut fmt::Formatter<W>) -> fmt::Result {
        match self {
            Cause::NotAnAddress => f.write_str("not HOST:PORT"),
            Cause::IsSecure => f.write_str("https isn't served"),
            Cause::TooMany => f.write_str("more than 9 endpoints"),
            Cause::NotANumber { low, high } => write!(f, "not a number from {low} to {high}"),
        }
    }
}
