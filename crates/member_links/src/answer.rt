ghost use Rattle.std.specs.Prelude.{◌≡◌, None, IsOk};
ghost use Rattle.member_links.specs.Answers.{faults_of};

use crate::call_answer::CallAnswer;
use crate::stream_answer::StreamAnswer;
use outside::{Failed, ReadMark, Source};
use std::net::{Net, TcpStream};
use std::rt::Clock as Times;
use std::sync::Wait;

/// What a member answers to a call, as it comes.
#[derive(Drop)]
pub enum SocketAnswer<R: Drop> {
    /// All of it is to be there by a moment.
    Call(CallAnswer<R>),
    /// It comes as long as its member sends.
    Stream(StreamAnswer<R>),
}

impl<R: Net<Stream = TcpStream> + Times + Wait + Drop> Source for SocketAnswer<R> {
    ghost left = { λ s. None };

    ghost faults = { λ s. faults_of s };

    ghost reads = { λ old size came new. Unit {0} };

    fn read(&mut self, room: &mut [u8]) -> Result<usize, Failed> {
        match self {
            SocketAnswer::Call(call) => call.read(room),
            SocketAnswer::Stream(stream) => stream.read(room),
        }
    }

    /// A member that is gone is seen by the next read.
    fn check(&mut self) -> Result<(), Failed>
        ensures there { IsOk result }
        ensures kept { faults_of self.new ≡ faults_of self.old }
    {
        match self {
            SocketAnswer::Call(call) => call.check(),
            SocketAnswer::Stream(stream) => stream.check(),
        }
    }

    fn mark(&mut self, mark: ReadMark) {
        match self {
            SocketAnswer::Call(call) => call.mark(mark),
            SocketAnswer::Stream(stream) => stream.mark(mark),
        }
    }
}
