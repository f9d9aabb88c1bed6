//! What is the same of a file of an archive and of the file that a server serves.
ghost use Rattle.std.specs.Prelude.{◌≡◌, ◌≢◌, ℕ, List, Some, None, false, length};
ghost use Rattle.ogg_http.specs.declared.head.Verb.TheVariants.{Other};
ghost use Rattle.serve_responses.specs.Response.{Asked, Content, lacks_host, response_by};
ghost use Rattle.serve_responses.specs.Response.Content.{Pages};
ghost use Rattle.archive_fetch.specs.Replies.{content_of, reply_of};
ghost use Rattle.archive_fetch.specs.declared.replies.FileFacts.{FileFacts as FactsOf};
ghost use Rattle.archive_fetch.specs.declared.replies.Reply.TheVariants.{Found, Refused};

/// A request for a file that its client doesn't have gets the answer, and the bytes, that a request for the whole of a
/// served file gets, and it is refused where that is.
pub fn files_are_answered_as_resources()
    ensures found { (asked : Asked) (file : FactsOf) (bytes : List ℕ) → length bytes ≡ file.bytes → lacks_host asked ≡ false → asked.verb ≢ Other
        → (reply_of asked false (Some file) ≡ Found (response_by asked.verb asked.range (Some (Pages bytes))).answer file)
        × (content_of asked.verb (reply_of asked false (Some file)) bytes ≡ (response_by asked.verb asked.range (Some (Pages bytes))).content) }
    ensures none { (asked : Asked) → lacks_host asked ≡ false → reply_of asked false None ≡ Refused (response_by asked.verb asked.range None).answer }
{}
