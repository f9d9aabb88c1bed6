//! What the first bytes of a connection ask for.
use serve_sources::{Asks, OwnResource};

const LIVE: Asks = Asks::Own {
    resource: OwnResource::Live,
    head: false,
};

const PLAYER: Asks = Asks::Own {
    resource: OwnResource::Player,
    head: false,
};

const STATUS: Asks = Asks::Own {
    resource: OwnResource::Status,
    head: false,
};

const FRONTS: [(&[u8], Asks); 65] = [
    (b"", Asks::More),
    (b"P", Asks::More),
    (b"PUT", Asks::More),
    (b"PUT ", Asks::Source),
    (b"PUT \0\0", Asks::Source),
    (b"PUTT", Asks::File),
    (b"POST /live HTTP/1.1\r\n", Asks::File),
    (b"put /live", Asks::File),
    (b"SOURCE", Asks::More),
    (b"SOURCE /x HTTP/1.0\r\n", Asks::Source),
    (b"SOURCES", Asks::File),
    (b"OPTIONS * HTTP/1.1\r\n", Asks::File),
    (b"G", Asks::More),
    (b"GET ", Asks::More),
    (b"GET /l", Asks::More),
    (b"GET /live", Asks::More),
    (b"GET /live HTTP/1.1\r\nHost: a\r\n", Asks::More),
    (b"GET /live HTTP/1.1\r\nHost: a\r\n\r\n", LIVE),
    (b"GET /live HTTP/1.0\r\n\r\n", LIVE),
    (
        b"GET /live HTTP/1.1\r\nHost: a\r\nRange: bytes=0-\r\n\r\n",
        LIVE,
    ),
    (b"GET /live HTTP/1.0\r\nIcy-MetaData: 1\r\n\r\n\0", LIVE),
    (b"GET /live.ogg HTTP/1.0\r\n\r\n", LIVE),
    (b"GET /live?a HTTP/1.0\r\n\r\n", LIVE),
    (b"GET /live.ogg?a=/b HTTP/1.0\r\n\r\n", LIVE),
    (b"GET http://a/live HTTP/1.1\r\nHost: a\r\n\r\n", LIVE),
    (
        b"HEAD /live HTTP/1.0\r\n\r\n",
        Asks::Own {
            resource: OwnResource::Live,
            head: true,
        },
    ),
    (b"HEAD /live", Asks::More),
    (b"GET /live HTTP/1.1\r\n\r\n", Asks::File),
    (
        b"GET /live HTTP/1.1\r\nHost: a\r\nHost: a\r\n\r\n",
        Asks::File,
    ),
    (b"GET /livexyz", Asks::File),
    (b"GET /live/ HTTP/1.0\r\n\r\n", Asks::File),
    (b"GET /live.mp3", Asks::File),
    (b"GET /Live", Asks::File),
    (b"GET /all", Asks::File),
    (b"GET /live HTTP/1.0\r\nA\r\n", Asks::File),
    (b"GET /live HTTP/2.0\r\n", Asks::File),
    (b"GET http://a/all HTTP/1.1\r\n", Asks::File),
    (b"get /live HTTP/1.0\r\n\r\n", Asks::File),
    (b"DELETE /live HTTP/1.0\r\n\r\n", Asks::File),
    (b"\r\nGET /live HTTP/1.0\r\n\r\n", Asks::File),
    (b"GET /p", Asks::More),
    (b"GET /player", Asks::More),
    (b"GET /player HTTP/1.1\r\nHost: a\r\n", Asks::More),
    (b"GET /player HTTP/1.1\r\nHost: a\r\n\r\n", PLAYER),
    (b"GET /player?x=/y HTTP/1.0\r\n\r\n", PLAYER),
    (
        b"GET HTTP://a:8000/player HTTP/1.1\r\nHost: a\r\n\r\n",
        PLAYER,
    ),
    (b"GET http://a/play", Asks::More),
    (
        b"HEAD /player HTTP/1.0\r\n\r\n",
        Asks::Own {
            resource: OwnResource::Player,
            head: true,
        },
    ),
    (b"GET /players", Asks::File),
    (b"GET /players HTTP/1.0\r\n\r\n", Asks::File),
    (b"GET /player/ HTTP/1.0\r\n\r\n", Asks::File),
    (b"GET /player HTTP/1.1\r\n\r\n", Asks::File),
    (b"POST /player HTTP/1.0\r\n\r\n", Asks::File),
    (b"GET /statu", Asks::More),
    (b"GET /status", Asks::More),
    (b"GET /status HTTP/1.0\r\n\r\n", STATUS),
    (b"GET /status?x HTTP/1.1\r\nHost: a\r\n\r\n", STATUS),
    (b"GET http://a/status HTTP/1.1\r\nHost: a\r\n\r\n", STATUS),
    (
        b"HEAD /status HTTP/1.0\r\n\r\n",
        Asks::Own {
            resource: OwnResource::Status,
            head: true,
        },
    ),
    (b"GET /statuses", Asks::File),
    (b"GET /status.ogg HTTP/1.0\r\n\r\n", Asks::File),
    (b"GET /status HTTP/1.1\r\n\r\n", Asks::File),
    (
        b"GET /status HTTP/1.1\r\nHost: a\r\nHost: a\r\n\r\n",
        Asks::File,
    ),
    (b"POST /status HTTP/1.0\r\n\r\n", Asks::File),
    (b"PUT /status HTTP/1.0\r\n\r\n", Asks::Source),
];

#[test]
fn knows_what_is_asked_for(rt: HostRuntime) {
    for &(front, asks) in &FRONTS {
        assert!(rt; Asks::of(front) == asks);
    }
}
