//! What always holds of sources' requests.
ghost use Rattle.std.specs.Prelude.{◌≡◌, ◌<◌, ◌++◌, ◌∷◌, ◌⊎◌, Bool, true, false, ℕ, List, None, codes, count_by, map};
ghost use Rattle.std.specs.Str.{byte};
ghost use Rattle.base64.specs.GeneralPurpose.{IsBytes};
ghost use Rattle.httparse.specs.Grammar.{Field, RequestHead};
ghost use Rattle.http1.specs.Body.{ReadsBody, body_of};
ghost use Rattle.http1.specs.declared.framing.Framing.{Framing as FramingOf};
ghost use Rattle.serve_sources.specs.declared.answers.TheConstants.{LIVE, FULL};
ghost use Rattle.serve_sources.specs.declared.reply.Reply.{Reply as ReplyOf};
ghost use Rattle.serve_sources.specs.Answers.{live_text, full_text};
ghost use Rattle.httparse.specs.Spans.{name_and_value};
ghost use Rattle.http1.specs.Fields.{Header, is_framing_field, known_fields};
ghost use Rattle.serve_sources.specs.declared.offer.Offer.{Offer as OfferOf};
ghost use Rattle.serve_sources.specs.declared.offer.Offer.TheVariants.{Refused as IsRefused};
ghost use Rattle.serve_sources.specs.declared.refused.Refused.TheVariants.{BadRequest, Unauthorized};
ghost use Rattle.serve_sources.specs.Fields.{only};
ghost use Rattle.serve_sources.specs.Framing.{framing_of};
ghost use Rattle.serve_sources.specs.Offer.{Says};
ghost use Rattle.serve_sources.specs.Asking.{HasHead, IsOther, IsOwn, LacksHead, is_source};
ghost use Rattle.serve_sources.specs.declared.own.OwnResource.{OwnResource};
ghost use Rattle.serve_sources.specs.Credentials.{IsBasic, authorizes, value_authorizes};
ghost use Rattle.serve_sources.specs.Body.{Takes, body_for, limits};

/// What the first bytes of a connection ask for is the same whatever follows: a source stays one, and so does a listener.
/// After other bytes no source's and no listener's request comes.
pub fn answers_stay()
    ensures source { (front more : List ℕ) → is_source front ≡ true → is_source (front ++ more) ≡ true }
    ensures own { (resource : OwnResource) (head : Bool) (front more : List ℕ) → IsOwn resource head front → IsOwn resource head (front ++ more) }
    ensures no_source { (front more : List ℕ) → IsOther front → is_source (front ++ more) ≡ false }
    ensures no_own { (resource : OwnResource) (head : Bool) (front more : List ℕ) → IsOther front → ¬ (IsOwn resource head (front ++ more)) }
{}

/// No source is taken without the password, and none whose head has two fields that say where the body ends, be it
/// `Content-Length` or `Transfer-Encoding`, even if they say the same.
pub fn sources_are_refused()
    ensures no_password { (password : List ℕ) (head : RequestHead) (offer : OfferOf)
        → authorizes (only (codes "authorization") (map name_and_value head.fields)) password ≡ false
        → Says password head offer
        → (offer ≡ IsRefused BadRequest) ⊎ (offer ≡ IsRefused Unauthorized) }
    ensures two_framings { (http11 : Bool) (fields : List Header) → 1 < count_by is_framing_field fields
        → framing_of http11 (known_fields fields) ≡ None }
{}

/// The head that bytes begin with is one, and stays that whatever follows. Where there is none and the source is refused,
/// none comes.
pub fn heads_stay()
    ensures one { (front : List ℕ) (head other : RequestHead) → HasHead front head → HasHead front other → head ≡ other }
    ensures stays { (front more : List ℕ) (head : RequestHead) → HasHead front head → HasHead (front ++ more) head }
    ensures none { (front more : List ℕ) → LacksHead front → (head : RequestHead) → ¬ (HasHead (front ++ more) head) }
{}

/// The value of an `Authorization` field gives the password exactly if it is Basic credentials with this password and any
/// user name (RFC 7617, section 2).
pub fn basic_credentials_are_taken()
    ensures each { (user password value : List ℕ) → IsBytes (user ++ byte ":" ∷ password)
        → IsBasic user password value → value_authorizes value password ≡ true }
    ensures only { (password value : List ℕ) → IsBytes value → value_authorizes value password ≡ true
        → (user : List ℕ) × IsBasic user password value }
{}

/// The constant answers, line by line.
pub fn answers_are_these()
    ensures live { LIVE.now ≡ live_text }
    ensures full { FULL.now ≡ full_text }
{}

/// What a caller takes of a body, piece by piece, is the body of RFC 9112, section 6: so many bytes, or the content of
/// the chunks (section 7.1), or all up to the end of the connection; and it is the same however the bytes were cut.
pub fn bodies_are_taken_whole()
    ensures read { (framing : FramingOf) (reply : ReplyOf) (stream taken rest : List ℕ)
        → Takes (body_for framing reply) stream taken rest
        → (trailers : List Field) × ReadsBody limits framing stream (body_of taken trailers) rest }
    ensures one { (framing : FramingOf) (reply other : ReplyOf) (stream taken others rest left : List ℕ)
        → Takes (body_for framing reply) stream taken rest → Takes (body_for framing other) stream others left
        → (taken ≡ others) × (rest ≡ left) }
{}
