//! A plain read at its coordinator, which asks every replica that is alive. The replies of as many as its level waits for are
//! merged for good. Where they agree it is answered at once; else the merge goes to each of them whose reply is another, and
//! it is answered once all of these have acknowledged it. And what the client is to be told once its deadline has come.
//! After Cassandra's documentation, "Dynamo: Tunable Consistency" and "Read repair".
#![tactic(auto)]

ghost use Rattle.std.specs.Prelude.{◌≡◌, ◌||◌, ◌∷◌, ◌++◌, [], true, false, not, nat_lt, ℕ, List, Some, IfOk, OnOk, OnErr};
ghost use Rattle.cs_base.specs.Quorums.{is_in as is_in_of, heard_of as heard_of_count};
ghost use Rattle.changes.specs.declared.Held.{Held as held_value};
ghost use Rattle.peer_messages.specs.Settings.{replicas_of, needed};
ghost use Rattle.peer_messages.specs.declared.setting.Setting.{Setting as setting_value};
ghost use Rattle.peer_messages.specs.Moves.{tells as tells_of};
ghost use Rattle.node_steps.specs.State.{OpenRead as open_read};
ghost use Rattle.node_steps.specs.Reads.{start_read, started_read, heard_by, is_merged, is_awaited as is_awaited_of, mended_by as mended_by_of, without_one as without_one_of, received_of, replies_of, TellsRows, IsMergedInOrder, HearsReply, HearsMendAck, read_at};
ghost use Rattle.read_coord.specs.Keeping.{TellsMerge};
ghost use Rattle.read_coord.specs.Merges.{IsKept, merged_of};

mod reply;
mod sends;

use crate::reply::{
    Reply, begins_with, copy_first, copy_replies, differs, is_among, is_same, repliers,
};
use crate::sends::{ask_all, mend_all};
use cell_merge::Content;
use changes::Query;
use cs_base::{Items, Level, Micros, NodeId, ReqId};
use peer_messages::{
    Entries, Entry, Grounds, Move, NodeIds, Refusal, Setting, copy_nodes, is_before_deadline, is_in,
};
use row_select::shown;
use statement_plan::Columns;
use std::alloc::{AllocError, Global};
use std::marker::Model;

/// A read that its coordinator has not answered: its level, its query, the replies of replicas in the order in which they
/// came, and their merge.
#[derive(Drop)]
pub struct ReadCoord {
    level: Level,
    query: Query,
    replies: Vec<Reply>,
    /// None where all replies are the same: it is the first one's content.
    merged: Option<Content>,
    /// The replicas that have not acknowledged the merge, once it is fixed and has gone to them.
    mending: Option<NodeIds>,
}

impl Model for ReadCoord {
    ghost use Rattle.node_steps.specs.State.{OpenRead};
    ghost use Rattle.read_coord.specs.Merges.{merged_of, IsKept};

    ghost Value = { OpenRead };

    ghost view = { λ a. record { level = a.level; query = a.query; replies = a.replies.items; merged = merged_of a.merged a.replies.items; mending = a.mending } };

    ghost invariant = { λ a. IsKept a.merged a.replies.items };
}

fn copy_merged(alloc: Global, merged: &Option<Content>) -> Result<Option<Content>, AllocError>
    ensures { IfOk result (λ copy. copy ≡ merged.now) }
{
    match merged {
        Some(merged) => Ok(Some(merged.copy(alloc)?)),
        None => Ok(None),
    }
}

fn copy_mending(alloc: Global, mending: &Option<NodeIds>) -> Result<Option<NodeIds>, AllocError>
    ensures { IfOk result (λ copy. copy ≡ mending.now) }
{
    match mending {
        Some(nodes) => Ok(Some(copy_nodes(alloc, nodes.as_slice())?)),
        None => Ok(None),
    }
}

/// A read that has these replies and their merge, and copies of the rest.
fn heard_read(
    alloc: Global,
    level: Level,
    query: &Query,
    replies: Vec<Reply>,
    merged: Option<Content>,
    mending: &Option<NodeIds>,
) -> Result<ReadCoord, AllocError>
    requires { IsKept merged replies.items }
    ensures { IfOk result (λ read. read ≡ record { level = level; query = query.now; replies = replies.items; merged = merged_of merged replies.items; mending = mending.now }) }
{
    let mending = copy_mending(alloc, mending)?;
    Ok(ReadCoord {
        level,
        query: query.copy(alloc)?,
        replies,
        merged,
        mending,
    })
}

fn entered(alloc: Global, entry: Entry) -> Result<Entries, AllocError>
    ensures { IfOk result (λ entries. entries ≡ entry ∷ []) }
{
    Ok(Items::from_vec(vec![in alloc; entry]?))
}

/// The entry is made, and the read is done with.
fn tells(alloc: Global, entry: Entry) -> Result<Move, AllocError>
    ensures { IfOk result (λ turn. turn ≡ tells_of entry) }
{
    Ok(Move {
        sends: Items::new(alloc),
        entries: entered(alloc, entry)?,
        ended: true,
    })
}

/// The rows of a merge, which rests on the replies of these nodes.
fn rows_of(
    alloc: Global,
    request: ReqId,
    query: &Query,
    heard: NodeIds,
    merged: Content,
) -> Result<Move, AllocError>
    ensures { IfOk result (λ turn. TellsMerge request query.now heard merged turn) }
{
    let (rows, more) = shown(alloc, &merged, query)?;
    tells(
        alloc,
        Entry::Rows(request, rows, more, Grounds { heard, merged }),
    )
}

/// The content of both.
fn merge_of(alloc: Global, before: Content, content: Content) -> Result<Content, AllocError>
    ensures { IfOk result (λ merge. IsMergedInOrder merge before content) }
{
    let merge = before.merge(alloc, content)?;
    Ok(merge)
}

/// Those of the nodes that are another one.
fn without_one(alloc: Global, nodes: &[NodeId], from: NodeId) -> Result<NodeIds, AllocError>
    ensures { IfOk result (λ left. left ≡ without_one_of nodes.now from) }
{
    let mut left = Items::new(alloc);
    for node in nodes {
        if *node != from {
            left.push(*node)?;
        }
    }
    Ok(left)
}

/// What begins a read: it is entered, and each replica that is not marked down is asked.
pub fn opening(
    alloc: Global,
    setting: &Setting,
    down: &[NodeId],
    request: ReqId,
    level: Level,
    query: Query,
    columns: Columns,
) -> Result<Move, AllocError>
    ensures { IfOk result (λ turn. turn ≡ start_read setting.now down.now request level query columns) }
{
    let replicas = setting.replicas(&query.partition);
    let sends = ask_all(alloc, request, &query, replicas.as_slice(), down)?;
    Ok(Move {
        sends,
        entries: entered(alloc, Entry::Began(request, query, level, columns))?,
        ended: false,
    })
}

impl ReadCoord {
    ghost use Rattle.read_coord.specs.Merges.{agrees as agrees_of};
    ghost use Rattle.read_coord.specs.Keeping.{replies_with, with_reply, Keeps, IsMending, Fixes, Decides, differs_from, differing_from, counted, is_last as is_last_of, ends as ends_of};

    /// The read as it begins, with its [`opening`]: no replica has replied.
    pub fn start(alloc: Global, level: Level, query: &Query) -> Result<ReadCoord, AllocError>
        ensures { IfOk result (λ read. read ≡ started_read level query.now) }
    {
        Ok(ReadCoord {
            level,
            query: query.copy(alloc)?,
            replies: Vec::new(alloc),
            merged: None,
            mending: None,
        })
    }

    /// A copy of the read, which shares no memory with it.
    pub fn copy(&self, alloc: Global) -> Result<ReadCoord, AllocError>
        ensures { IfOk result (λ read. read ≡ self.now) }
    {
        let merged = copy_merged(alloc, &self.merged)?;
        let replies = copy_replies(alloc, &self.replies)?;
        heard_read(
            alloc,
            self.level,
            &self.query,
            replies,
            merged,
            &self.mending,
        )
    }

    #[tactic(auto, using(crate::proofs::Replies::among_those))]
    fn has_replied(&self, node: NodeId) -> bool
        ensures { result ≡ is_in_of (heard_by self.now) node }
    {
        is_among(&self.replies, node)
    }

    /// Whether the node has replied, where one more has.
    fn is_heard(&self, from: NodeId, node: NodeId) -> bool
        ensures { result ≡ is_in_of (heard_by self.now ++ from ∷ []) node }
    {
        self.has_replied(node) || from == node
    }

    /// How many of the replicas have replied, where one more has.
    fn received_with(&self, replicas: &[NodeId], from: NodeId) -> usize
        ensures { result ≡ heard_of_count replicas.now (heard_by self.now ++ from ∷ []) }
    {
        replicas
            .iter()
            .filter(|node| self.is_heard(from, **node))
            .count()
    }

    /// The replicas that replied, in order.
    fn heard(&self, alloc: Global) -> Result<NodeIds, AllocError>
        ensures { IfOk result (λ nodes. nodes ≡ heard_by self.now) }
    {
        repliers(alloc, &self.replies)
    }

    /// The replicas that replied, where one more has.
    fn heard_with(&self, alloc: Global, from: NodeId) -> Result<NodeIds, AllocError>
        ensures { IfOk result (λ nodes. nodes ≡ heard_by self.now ++ from ∷ []) }
    {
        let mut nodes = self.heard(alloc)?;
        nodes.push(from)?;
        Ok(nodes)
    }

    /// Whether each reply is this content, in one walk at most.
    fn agrees(&self, content: &Content) -> bool
        ensures { result ≡ agrees_of self.now.replies content.now }
    {
        match &self.merged {
            Some(_) => false,
            None => begins_with(&self.replies, content),
        }
    }

    /// The merge of the replies, in memory of its own.
    fn copy_merge(&self, alloc: Global) -> Result<Content, AllocError>
        ensures { IfOk result (λ merged. merged ≡ self.now.merged) }
    {
        match &self.merged {
            Some(merged) => merged.copy(alloc),
            None => copy_first(alloc, &self.replies),
        }
    }

    /// The merge with one more reply.
    fn merged_with(&self, alloc: Global, content: &Content) -> Result<Content, AllocError>
        ensures { IfOk result (λ merged. IsMergedInOrder merged self.now.merged content.now) }
    {
        let before = self.copy_merge(alloc)?;
        merge_of(alloc, before, content.copy(alloc)?)
    }

    /// Keeps a reply that is the same as all before. An error leaves the read as it was.
    fn push_same(&mut self, from: NodeId, content: Content) -> Result<(), AllocError>
        requires { agrees_of self.old.replies content ≡ true }
        ensures ok { OnOk result (Keeps from content self.old self.new) }
        ensures err { OnErr result (self.new ≡ self.old) }
    {
        self.replies.push(Reply { from, content })?;
        Ok(())
    }

    /// Puts a reply behind others which are not all the same, with the merge of them all.
    fn push_other(
        &mut self,
        from: NodeId,
        content: Content,
        merged: Content,
    ) -> Result<(), AllocError>
        requires { agrees_of self.old.replies content ≡ false }
        ensures ok { OnOk result (self.new ≡ with_reply self.old from content merged) }
        ensures err { OnErr result (self.new ≡ self.old) }
    {
        self.replies.push(Reply { from, content })?;
        self.merged = Some(merged);
        Ok(())
    }

    /// Keeps a reply that is not the same as all before. An error leaves the read as it was.
    fn keep_other(
        &mut self,
        alloc: Global,
        from: NodeId,
        content: Content,
    ) -> Result<(), AllocError>
        requires { agrees_of self.old.replies content ≡ false }
        ensures ok { OnOk result (Keeps from content self.old self.new) }
        ensures err { OnErr result (self.new ≡ self.old) }
    {
        let merged = self.merged_with(alloc, &content)?;
        self.push_other(from, content, merged)
    }

    /// Keeps a reply beside the others. An error leaves the read as it was.
    fn keep(&mut self, alloc: Global, from: NodeId, content: Content) -> Result<(), AllocError>
        ensures ok { OnOk result (Keeps from content self.old self.new) }
        ensures err { OnErr result (self.new ≡ self.old) }
    {
        if self.agrees(&content) {
            return self.push_same(from, content);
        }
        self.keep_other(alloc, from, content)
    }

    /// The answer from a merge of the replies and one more, which is that one itself where all are the same.
    fn answer(
        &self,
        alloc: Global,
        request: ReqId,
        from: NodeId,
        merged: Content,
    ) -> Result<Move, AllocError>
        ensures rows { IfOk result (λ turn. (content : List held_value) → TellsRows request (with_reply self.now from content merged) turn) }
        ensures same { IfOk result (λ turn. (replicas : List ℕ) (next : open_read) → agrees_of self.now.replies merged ≡ true → Decides request replicas from merged self.now turn next) }
        ensures ended { IfOk result (λ turn. turn.ended ≡ true) }
    {
        let heard = self.heard_with(alloc, from)?;
        rows_of(alloc, request, &self.query, heard, merged)
    }

    /// Whether a reply of the node, this one or one before, is another than the merge.
    #[tactic(auto, using(crate::proofs::Replies::differs_more))]
    fn differs(&self, from: NodeId, content: &Content, merged: &Content, node: NodeId) -> bool
        ensures { result ≡ differs_from merged.now (replies_with self.now from content.now) node }
    {
        differs(merged, &self.replies, node) || (from == node && !is_same(content, merged))
    }

    /// The replicas whose reply is.
    fn differing(
        &self,
        alloc: Global,
        replicas: &[NodeId],
        from: NodeId,
        content: &Content,
        merged: &Content,
    ) -> Result<NodeIds, AllocError>
        ensures { IfOk result (λ nodes. nodes ≡ differing_from merged.now (replies_with self.now from content.now) replicas.now) }
    {
        let mut nodes = Items::new(alloc);
        for node in replicas {
            if self.differs(from, content, merged, *node) {
                nodes.push(*node)?;
            }
        }
        Ok(nodes)
    }

    /// Keeps the last reply with the merge, which these nodes are to acknowledge.
    fn await_mends(
        &mut self,
        from: NodeId,
        content: Content,
        merged: Content,
        nodes: NodeIds,
    ) -> Result<(), AllocError>
        requires { agrees_of self.old.replies content ≡ false }
        ensures ok { OnOk result (self.new ≡ record (with_reply self.old from content merged) { mending = Some nodes }) }
        ensures err { OnErr result (self.new ≡ self.old) }
    {
        self.push_other(from, content, merged)?;
        self.mending = Some(nodes);
        Ok(())
    }

    /// Sends the merge to these nodes, and waits for them. An error leaves the read as it was.
    fn mend(
        &mut self,
        alloc: Global,
        request: ReqId,
        from: NodeId,
        content: Content,
        merged: Content,
        nodes: NodeIds,
    ) -> Result<Move, AllocError>
        requires { agrees_of self.old.replies content ≡ false }
        ensures ok { IfOk result (λ turn. IsMending request nodes (with_reply self.old from content merged) turn self.new) }
        ensures err { OnErr result (self.new ≡ self.old) }
    {
        let sends = mend_all(
            alloc,
            request,
            &self.query.partition,
            &merged,
            nodes.as_slice(),
        )?;
        self.await_mends(from, content, merged, nodes)?;
        Ok(Move {
            sends,
            entries: Items::new(alloc),
            ended: false,
        })
    }

    /// Answers the read from this merge of the replies, or sends it to the replicas whose reply is another.
    fn fix(
        &mut self,
        alloc: Global,
        replicas: &[NodeId],
        request: ReqId,
        from: NodeId,
        content: Content,
        merged: Content,
    ) -> Result<Move, AllocError>
        requires { agrees_of self.old.replies content ≡ false }
        ensures ok { IfOk result (λ turn. Fixes request replicas.now (with_reply self.old from content merged) turn self.new) }
        ensures err { OnErr result (self.new ≡ self.old) }
    {
        let nodes = self.differing(alloc, replicas, from, &content, &merged)?;
        if nodes.as_slice().is_empty() {
            drop(content);
            return self.answer(alloc, request, from, merged);
        }
        self.mend(alloc, request, from, content, merged, nodes)
    }

    /// Merges the last reply with the others for good.
    fn decide(
        &mut self,
        alloc: Global,
        replicas: &[NodeId],
        request: ReqId,
        from: NodeId,
        content: Content,
    ) -> Result<Move, AllocError>
        ensures ok { IfOk result (λ turn. Decides request replicas.now from content self.old turn self.new) }
        ensures err { OnErr result (self.new ≡ self.old) }
    {
        if self.agrees(&content) {
            return self.answer(alloc, request, from, content);
        }
        let merged = self.merged_with(alloc, &content)?;
        self.fix(alloc, replicas, request, from, content, merged)
    }

    /// Whether a reply of the node is none that the read can use: too late, of no replica, or of one that has replied.
    fn is_stray(&self, replicas: &[NodeId], from: NodeId) -> bool
        ensures { result ≡ (is_merged self.now.mending || (is_in_of (heard_by self.now) from || not (is_in_of replicas.now from))) }
    {
        match &self.mending {
            Some(_) => true,
            None => self.has_replied(from) || !is_in(replicas, from),
        }
    }

    /// Whether the replies are too few, where one more is there.
    fn waits(&self, setting: &Setting, replicas: &[NodeId], from: NodeId) -> bool
        ensures { result ≡ nat_lt (heard_of_count replicas.now (heard_by self.now ++ from ∷ [])) (needed setting.now self.now.level self.now.query.partition) }
    {
        let needed = setting.needed(self.level, &self.query.partition);
        self.received_with(replicas, from) < usize::from(needed)
    }

    #[tactic(auto, using(crate::proofs::Hearing::reply_strays))]
    fn hear(
        &mut self,
        alloc: Global,
        setting: &Setting,
        replicas: &[NodeId],
        request: ReqId,
        from: NodeId,
        content: Content,
    ) -> Result<Move, AllocError>
        requires { replicas.now ≡ replicas_of setting.now self.old.query.partition }
        ensures ok { IfOk result (λ turn. HearsReply setting.now request from content self.old turn self.new) }
        ensures err { OnErr result (self.new ≡ self.old) }
    {
        if self.is_stray(replicas, from) {
            return Ok(Move::quiet(alloc));
        }
        if self.waits(setting, replicas, from) {
            self.keep(alloc, from, content)?;
            return Ok(Move::quiet(alloc));
        }
        self.decide(alloc, replicas, request, from, content)
    }

    /// Whether a reply of the node is the last that the read waits for.
    fn is_last(&self, setting: &Setting, replicas: &[NodeId], from: NodeId) -> bool
        requires { replicas.now ≡ replicas_of setting.now self.now.query.partition }
        ensures { result ≡ is_last_of setting.now from self.now }
    {
        !self.is_stray(replicas, from) && !self.waits(setting, replicas, from)
    }

    /// Whether this reply of the node is the last that the read waits for and the same as all before, so that the read is
    /// answered and done with. The content is looked at in one walk at most.
    pub fn ends(&self, setting: &Setting, from: NodeId, content: &Content) -> bool
        ensures { result ≡ ends_of setting.now from content.now self.now }
    {
        let replicas = setting.replicas(&self.query.partition);
        self.is_last(setting, replicas.as_slice(), from) && self.agrees(content)
    }

    /// What comes of a reply that [`ends`](ReadCoord::ends) the read.
    pub fn on_end(
        &self,
        alloc: Global,
        request: ReqId,
        from: NodeId,
        content: Content,
    ) -> Result<Move, AllocError>
        ensures hears { IfOk result (λ turn. (c : setting_value) → ends_of c from content self.now ≡ true → HearsReply c request from content self.now turn self.now) }
        ensures ended { IfOk result (λ turn. turn.ended ≡ true) }
    {
        self.answer(alloc, request, from, content)
    }

    /// Takes a node's reply to the request. That of a node that is no replica, a repeated one, and one that comes when the
    /// merge is fixed count for nothing. A read that is answered is done with, and an error leaves it as it was.
    pub fn on_reply(
        &mut self,
        alloc: Global,
        setting: &Setting,
        request: ReqId,
        from: NodeId,
        content: Content,
    ) -> Result<Move, AllocError>
        ensures ok { IfOk result (λ turn. HearsReply setting.now request from content self.old turn self.new) }
        ensures err { OnErr result (self.new ≡ self.old) }
    {
        let replicas = setting.replicas(&self.query.partition);
        self.hear(alloc, setting, replicas.as_slice(), request, from, content)
    }

    /// Whether the node has the merge to acknowledge.
    fn is_awaited(&self, from: NodeId) -> bool
        ensures { result ≡ is_awaited_of self.now.mending from }
    {
        match &self.mending {
            Some(nodes) => is_in(nodes.as_slice(), from),
            None => false,
        }
    }

    /// Those that still have, when the node has acknowledged it.
    fn mended_by(&self, alloc: Global, from: NodeId) -> Result<NodeIds, AllocError>
        ensures { IfOk result (λ nodes. nodes ≡ mended_by_of self.now.mending from) }
    {
        match &self.mending {
            Some(nodes) => without_one(alloc, nodes.as_slice(), from),
            None => Ok(Items::new(alloc)),
        }
    }

    /// The answer from the merge of the replies.
    fn answer_mended(&self, alloc: Global, request: ReqId) -> Result<Move, AllocError>
        ensures { IfOk result (λ turn. TellsRows request self.now turn) }
    {
        let heard = self.heard(alloc)?;
        rows_of(alloc, request, &self.query, heard, self.copy_merge(alloc)?)
    }

    /// Takes a node's acknowledgement of the merge. That of a node to which the merge did not go, and a repeated one, count
    /// for nothing. At the last one the read is answered and done with. An error leaves it as it was.
    pub fn on_mend_ack(
        &mut self,
        alloc: Global,
        request: ReqId,
        from: NodeId,
    ) -> Result<Move, AllocError>
        ensures ok { IfOk result (λ turn. (c : setting_value) → HearsMendAck c request from self.old turn self.new) }
        ensures err { OnErr result (self.new ≡ self.old) }
    {
        if !self.is_awaited(from) {
            return Ok(Move::quiet(alloc));
        }
        let left = self.mended_by(alloc, from)?;
        if left.as_slice().is_empty() {
            return self.answer_mended(alloc, request);
        }
        self.mending = Some(left);
        Ok(Move::quiet(alloc))
    }

    /// How many of the replicas have replied.
    fn received(&self, replicas: &[NodeId]) -> usize
        ensures { result ≡ heard_of_count replicas.now (heard_by self.now) }
    {
        replicas
            .iter()
            .filter(|node| self.has_replied(**node))
            .count()
    }

    /// Whether the node has replied, or has the merge once there is one.
    fn is_counted(&self, node: NodeId) -> bool
        ensures { result ≡ is_in_of (counted self.now.mending (heard_by self.now)) node }
    {
        self.has_replied(node) && !self.is_awaited(node)
    }

    /// How many of these replicas have.
    fn counted_in(&self, replicas: &[NodeId]) -> usize
        ensures { result ≡ heard_of_count replicas.now (counted self.now.mending (heard_by self.now)) }
    {
        replicas
            .iter()
            .filter(|node| self.is_counted(**node))
            .count()
    }

    /// How many of the replicas have.
    #[tactic(auto, using(crate::proofs::Hearing::received_is))]
    fn counted(&self, setting: &Setting) -> u8
        ensures { result ≡ received_of setting.now self.now }
    {
        let replicas = setting.replicas(&self.query.partition);
        // no more than the replicas, which are seven at most
        self.counted_in(replicas.as_slice()).min(replicas.len()) as u8
    }

    /// Whether any of the replicas has replied.
    fn has_data(&self, setting: &Setting) -> bool
        ensures { result ≡ nat_lt 0 (replies_of setting.now self.now) }
    {
        let replicas = setting.replicas(&self.query.partition);
        self.received(replicas.as_slice()) > 0
    }

    /// What the read is told at this time: nothing before its deadline, 5 seconds after its start, and from then on how
    /// many replicas have replied, or have the merge once there is one, and whether any has replied.
    pub fn at_time(
        &self,
        alloc: Global,
        setting: &Setting,
        request: ReqId,
        time: Micros,
    ) -> Result<Move, AllocError>
        ensures { IfOk result (λ turn. turn ≡ read_at setting.now request time self.now) }
    {
        if is_before_deadline(&request, time) {
            return Ok(Move::quiet(alloc));
        }
        let refusal = Refusal::ReadTimeout {
            received: self.counted(setting),
            blockfor: setting.needed(self.level, &self.query.partition),
            data: self.has_data(setting),
        };
        tells(alloc, Entry::Refused(request, refusal))
    }
}
