ghost use Rattle.http_frame.specs.Laws.{OneFrame, StaysRequest, HeadIsFrame, BodyIsFrame, OneResponseFrame, WrittenIsFrame, ReadIsSpelled, WrittenResponseIsFrame};

/// What stands at the front of a stream is determined by its bytes, and a request by its own bytes
/// alone. So what an answer of [`Frames`](crate::Frames) means, as its clauses say, is when it comes.
pub fn frames_are_determined()
    ensures one_frame { OneFrame }
    ensures stays { StaysRequest }
{}

/// A head and then its request are the frame: [`next_head`](crate::Frames::next_head) and
/// [`read_body`](crate::Frames::read_body) together answer what stands at the front of the stream.
pub fn heads_and_bodies_are_frames()
    ensures head { HeadIsFrame }
    ensures body { BodyIsFrame }
{}

/// What stands at the front of a stream of responses is determined by its bytes. So what an answer of
/// [`next_response`](crate::Frames::next_response) means, as its clauses say, is when it comes.
pub fn response_frames_are_determined()
    ensures { OneResponseFrame }
{}

/// What [`write_request`](crate::write_request) writes of a request is read as that request, and nothing
/// is left. This holds of each request that was read, unless it has a transfer coding, and of each other
/// one that some head spells, where its bytes keep the limits.
pub fn written_requests_are_frames()
    ensures frame { WrittenIsFrame }
    ensures spelled { ReadIsSpelled }
{}

/// What [`write_response`](crate::write_response) writes of a response with its body is read as that
/// response with the fields of its framing behind its own, whatever follows it. It is to be no
/// informational one and none of status 304, to have plain fields that say nothing of its framing, and to
/// keep the limits.
pub fn written_responses_are_frames()
    ensures { WrittenResponseIsFrame }
{}
