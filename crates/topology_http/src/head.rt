ghost use Rattle.std.specs.Prelude.{◌≡◌, ◌≤◌, length, take};
ghost use Rattle.topology_http.specs.Heads.{Answers, AnswersRequest, AnswersResponse, answer_in};
ghost use Rattle.topology_http.specs.declared.limits.TheConstants.{HEAD_FIELDS};
ghost use Rattle.topology_http.specs.Within.{IsFoundWithin};

use crate::{First, Side};
use httparse::Status;
use httparse::spans::{HeaderSpan, parse_request, parse_response};

// A head in bytes: its first line, how many fields it has, and its length.
#[derive(Clone, Copy)]
pub struct Head<'a> {
    pub first: First<'a>,
    pub fields: usize,
    pub size: usize,
}

// What stands at the front of bytes.
#[derive(Clone, Copy)]
pub enum Found<'a> {
    Whole { head: Head<'a> },
    Unfinished,
    Refused,
}

fn request_at<'a>(bytes: &'a [u8], headers: &mut [HeaderSpan]) -> Found<'a>
    requires { length headers.old ≡ HEAD_FIELDS }
    ensures answer { AnswersRequest bytes.now (answer_in bytes.now headers.new result) }
    ensures within { IsFoundWithin bytes.now headers.new result }
{
    match parse_request(bytes, headers) {
        Ok(Status::Complete(spans)) => Found::Whole {
            head: Head {
                first: First::Request {
                    method: spans.method.of(bytes),
                    target: spans.path.of(bytes),
                },
                fields: spans.headers,
                size: spans.len,
            },
        },
        Ok(Status::Partial) => Found::Unfinished,
        Err(_) => Found::Refused,
    }
}

fn response_at<'a>(bytes: &'a [u8], headers: &mut [HeaderSpan]) -> Found<'a>
    requires { length headers.old ≡ HEAD_FIELDS }
    ensures answer { AnswersResponse bytes.now (answer_in bytes.now headers.new result) }
    ensures within { IsFoundWithin bytes.now headers.new result }
{
    match parse_response(bytes, headers) {
        Ok(Status::Complete(spans)) => Found::Whole {
            head: Head {
                first: First::Response { status: spans.code },
                fields: spans.headers,
                size: spans.len,
            },
        },
        Ok(Status::Partial) => Found::Unfinished,
        Err(_) => Found::Refused,
    }
}

pub fn head_at<'a>(bytes: &'a [u8], side: Side, headers: &mut [HeaderSpan]) -> Found<'a>
    requires { length headers.old ≡ HEAD_FIELDS }
    ensures answer { Answers side bytes.now (answer_in bytes.now headers.new result) }
    ensures within { IsFoundWithin bytes.now headers.new result }
{
    match side {
        Side::Request => request_at(bytes, headers),
        Side::Response => response_at(bytes, headers),
    }
}
