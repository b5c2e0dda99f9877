//! The messages that were sent, and which of them the network has passed.

ghost use Rattle.std.specs.Prelude.{◌≡◌, ◌+◌, ◌++◌, ◌≤◌, ◌<◌, [], IfOk, IfSome, IsTrue, ◌↔◌, OnOk, Some, None, length, slice_get, slice_set, vec_len, vec_capacity, replicate, true, false};
ghost use Rattle.cluster_model.specs.State.{place_of, oldest_from, with_sent, passed_at};
ghost use Rattle.cluster_model.specs.Mails.{HoldsMail, post_of};

use crate::routes::Routes;
use cs_base::NodeId;
use event_copies::copy_message;
use peer_messages::{Message, Messages};
use std::alloc::{AllocError, Global};

/// Every message that was sent, the oldest first, and whether it was delivered or lost.
#[derive(Drop)]
pub(crate) struct Mail {
    pub sent: Vec<Message>,
    pub passed: Vec<bool>,
    /// The newest messages, for which there was no time to make room yet.
    pub news: Option<Messages>,
    /// All before this place were passed.
    pub oldest: usize,
    pub routes: Routes,
}

/// Adds items for which there is room.
fn add_all<T: Drop>(items: &mut Vec<T>, mut more: Vec<T>)
    requires { vec_len items.old + vec_len more ≤ vec_capacity items.old }
    ensures { items.new.items ≡ items.old.items ++ more.items }
{
    if items.append(&mut more).is_err() {
        unreachable!();
    }
}

/// Adds so many messages that are not passed, for which there is room.
fn add_open(passed: &mut Vec<bool>, count: usize)
    requires { vec_len passed.old + count ≤ vec_capacity passed.old }
    ensures { passed.new.items ≡ passed.old.items ++ replicate count false }
{
    let all = passed.len() + count;
    if passed.resize(all, false).is_err() {
        unreachable!();
    }
}

impl Mail {
    pub fn new(alloc: Global) -> Result<Mail, AllocError>
        ensures post { IfOk result (λ mail. post_of mail ≡ record { sent = []; passed = [] }) }
        ensures holds { IfOk result (λ mail. HoldsMail mail) }
    {
        Ok(Mail {
            sent: Vec::new(alloc),
            passed: Vec::new(alloc),
            news: None,
            oldest: 0,
            routes: Routes::new(alloc)?,
        })
    }

    /// Makes room for so many messages.
    fn reserve(&mut self, count: usize) -> Result<(), AllocError>
        requires { HoldsMail self.old }
        ensures same { post_of self.new ≡ post_of self.old }
        ensures items { self.new.sent.items ≡ self.old.sent.items }
        ensures flags { self.new.passed.items ≡ self.old.passed.items }
        ensures news { self.new.news ≡ self.old.news }
        ensures holds { HoldsMail self.new }
        ensures sent { OnOk result (vec_len self.new.sent + count ≤ vec_capacity self.new.sent) }
        ensures passed { OnOk result (vec_len self.new.passed + count ≤ vec_capacity self.new.passed) }
    {
        self.sent.reserve(count)?;
        self.passed.reserve(count)
    }

    /// Adds messages for which there is room.
    fn add(&mut self, messages: Messages)
        requires holds { HoldsMail self.old }
        requires none { self.old.news ≡ None }
        requires sent { vec_len self.old.sent + length messages ≤ vec_capacity self.old.sent }
        requires passed { vec_len self.old.passed + length messages ≤ vec_capacity self.old.passed }
        ensures sent { self.new.sent.items ≡ self.old.sent.items ++ messages }
        ensures passed { self.new.passed.items ≡ self.old.passed.items ++ replicate (length messages) false }
        ensures none { self.new.news ≡ None }
        ensures holds { HoldsMail self.new }
    {
        add_open(&mut self.passed, messages.as_slice().len());
        add_all(&mut self.sent, messages.into_vec());
    }

    /// Puts the newest messages behind the others. An error changes nothing.
    pub fn sort_in(&mut self) -> Result<(), AllocError>
        requires { HoldsMail self.old }
        ensures post { post_of self.new ≡ post_of self.old }
        ensures holds { HoldsMail self.new }
        ensures none { OnOk result (self.new.news ≡ None) }
        ensures more { vec_len self.old.passed ≤ vec_len self.new.passed }
    {
        let Some(news) = &self.news else {
            return Ok(());
        };
        let count = news.as_slice().len();
        self.reserve(count)?;
        if let Some(news) = self.news.take() {
            self.add(news);
        }
        Ok(())
    }

    /// Messages are sent, the first ones since the others were sorted in. It takes no memory.
    pub fn send(&mut self, messages: Messages)
        requires holds { HoldsMail self.old }
        requires none { self.old.news ≡ None }
        ensures post { post_of self.new ≡ with_sent (post_of self.old) messages }
        ensures holds { HoldsMail self.new }
        ensures passed { self.new.passed ≡ self.old.passed }
    {
        self.news = Some(messages);
    }

    /// An equal message to the one at this place, if there is one. The newest ones are sorted in.
    pub fn copy_at(&self, alloc: Global, place: usize) -> Result<Option<Message>, AllocError>
        requires holds { HoldsMail self.now }
        requires none { self.now.news ≡ None }
        ensures message { IfOk result (λ message. message ≡ slice_get (post_of self.now).sent place) }
        ensures within { IfOk result (λ message. IfSome message (λ _. place < vec_len self.now.passed)) }
    {
        match self.sent.get(place) {
            Some(message) => Ok(Some(copy_message(alloc, message)?)),
            None => Ok(None),
        }
    }

    /// The place of the oldest message that was not passed. The newest ones are sorted in.
    pub fn oldest(&mut self) -> Option<usize>
        requires holds { HoldsMail self.old }
        requires none { self.old.news ≡ None }
        ensures post { post_of self.new ≡ post_of self.old }
        ensures none { self.new.news ≡ None }
        ensures holds { HoldsMail self.new }
        ensures place { result ≡ oldest_from 0 (post_of self.old).passed }
        ensures within { IfSome result (λ place. place < vec_len self.new.passed) }
    {
        while self.is_passed(self.oldest) {
            self.oldest += 1;
        }
        if self.oldest < self.passed.len() {
            Some(self.oldest)
        } else {
            None
        }
    }

    /// Whether there is a message at this place, and it was passed.
    fn is_passed(&self, place: usize) -> bool
        ensures { IsTrue result ↔ (slice_get self.now.passed.items place ≡ Some true) }
    {
        match self.passed.get(place) {
            Some(passed) => *passed,
            None => false,
        }
    }

    /// Of the messages from one node to another the place of this one, counted from 1. The newest ones are sorted in.
    pub fn place(
        &mut self,
        from: NodeId,
        upto: NodeId,
        number: u64,
    ) -> Result<Option<usize>, AllocError>
        requires holds { HoldsMail self.old }
        requires none { self.old.news ≡ None }
        ensures post { post_of self.new ≡ post_of self.old }
        ensures none { self.new.news ≡ None }
        ensures holds { HoldsMail self.new }
        ensures place { IfOk result (λ place. place ≡ place_of from upto number (post_of self.old).sent) }
        ensures within { IfOk result (λ place. IfSome place (λ at. at < vec_len self.new.passed)) }
    {
        self.routes.place(&self.sent, from, upto, number)
    }

    /// The message at this place, which is sorted in, is passed.
    pub fn pass(&mut self, place: usize)
        requires holds { HoldsMail self.old }
        requires within { place < vec_len self.old.passed }
        ensures post { post_of self.new ≡ passed_at (post_of self.old) place }
        ensures holds { HoldsMail self.new }
    {
        self.passed[place] = true;
    }
}
