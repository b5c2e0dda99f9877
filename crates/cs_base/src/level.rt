//! Consistency levels.

ghost use Rattle.std.specs.Prelude.{◌≡◌, ◌<◌, ◌↔◌, ◌⊎◌, IsTrue, IsNone, IfSome};
ghost use Rattle.cs_base.specs.Levels.{block_for, quorum, Meets};
ghost use Rattle.cs_base.specs.Quorums.{MeetingTestsShare, MeetingNodesShare};

/// How many replicas a request waits for, by Cassandra's names.
///
/// Those that begin with `Local` mean here what they mean without it, since there is one datacenter.
#[derive(Clone, Copy, Debug, PartialEq, Eq)]
pub enum Level {
    One,
    Two,
    Three,
    Quorum,
    All,
    LocalQuorum,
    Serial,
    LocalSerial,
    LocalOne,
}

impl Level {
    ghost use Rattle.cs_base.specs.Levels.{code_of, IsSerialLevel};

    /// The level of a `[consistency]` of native_protocol_v4.spec, section 3.
    ///
    /// ANY (0) and EACH_QUORUM (7) are no levels here.
    pub fn from_code(code: u16) -> Option<Level>
        ensures none { IsNone result ↔ ((code ≡ 0) ⊎ (code ≡ 7) ⊎ (10 < code)) }
        ensures value { IfSome result (λ level. code_of level ≡ code) }
    {
        match code {
            1 => Some(Level::One),
            2 => Some(Level::Two),
            3 => Some(Level::Three),
            4 => Some(Level::Quorum),
            5 => Some(Level::All),
            6 => Some(Level::LocalQuorum),
            8 => Some(Level::Serial),
            9 => Some(Level::LocalSerial),
            10 => Some(Level::LocalOne),
            _ => None,
        }
    }

    /// Whether the level is that of a conditional update's phases, `SERIAL` or `LOCAL_SERIAL`.
    pub fn is_serial(self) -> bool
        ensures { IsTrue result ↔ IsSerialLevel self }
    {
        matches!(self, Level::Serial | Level::LocalSerial)
    }
}

/// How many replicas out of `rf` a request at this level waits for.
pub fn blockfor(level: Level, rf: u8) -> u8
    ensures { result ≡ block_for level rf }
{
    match level {
        Level::One | Level::LocalOne => 1,
        Level::Two => 2,
        Level::Three => 3,
        Level::Quorum | Level::LocalQuorum | Level::Serial | Level::LocalSerial => quorum(rf),
        Level::All => rf,
    }
}

/// More than half of `rf` replicas.
pub fn quorum(rf: u8) -> u8
    ensures { result ≡ quorum rf }
{
    rf / 2 + 1
}

/// Whether any `w` out of `rf` replicas and any `r` of them share one.
pub fn meets(w: u8, r: u8, rf: u8) -> bool
    ensures { IsTrue result ↔ Meets w r rf }
{
    u16::from(w) + u16::from(r) > u16::from(rf)
}

/// Of tests that meet among the replicas, some replica passes both.
pub fn meeting_tests_share_a_replica()
    ensures { MeetingTestsShare }
{}

/// Two sets of nodes that meet among the replicas share a replica.
pub fn meeting_nodes_share_a_replica()
    ensures { MeetingNodesShare }
{}
