//! The code of a message: a method or a response code (RFC 7252, 3 and 12.1).
ghost use Rattle.std.specs.Prelude.{◌≡◌, ◌/◌, ◌%◌, ◌↔◌, IsTrue};
ghost use Rattle.coap_message.specs.Codes.{is_request, is_response};

/// A code: three bits of class and five bits of detail, written `c.dd` (RFC 7252, 3).
#[derive(Clone, Copy, Debug, PartialEq, Eq)]
pub struct Code(pub u8);

impl Code {
    /// 0.00, the code of an Empty message.
    pub const EMPTY: Code = Code(0x00);
    /// 0.01
    pub const GET: Code = Code(0x01);
    /// 0.02
    pub const POST: Code = Code(0x02);
    /// 0.03
    pub const PUT: Code = Code(0x03);
    /// 0.04
    pub const DELETE: Code = Code(0x04);
    /// 2.01
    pub const CREATED: Code = Code(0x41);
    /// 2.02
    pub const DELETED: Code = Code(0x42);
    /// 2.03
    pub const VALID: Code = Code(0x43);
    /// 2.04
    pub const CHANGED: Code = Code(0x44);
    /// 2.05
    pub const CONTENT: Code = Code(0x45);
    /// 4.00
    pub const BAD_REQUEST: Code = Code(0x80);
    /// 4.02
    pub const BAD_OPTION: Code = Code(0x82);
    /// 4.04
    pub const NOT_FOUND: Code = Code(0x84);
    /// 4.05
    pub const METHOD_NOT_ALLOWED: Code = Code(0x85);
    /// 4.13
    pub const REQUEST_ENTITY_TOO_LARGE: Code = Code(0x8D);
    /// 5.02
    pub const BAD_GATEWAY: Code = Code(0xA2);
    /// 5.03
    pub const SERVICE_UNAVAILABLE: Code = Code(0xA3);
    /// 5.04
    pub const GATEWAY_TIMEOUT: Code = Code(0xA4);
    /// 5.05
    pub const PROXYING_NOT_SUPPORTED: Code = Code(0xA5);

    /// The class: 0 for requests, 2 success, 4 client error, 5 server error.
    pub fn class(self) -> u8
        ensures { result ≡ self.0 / 32 }
    {
        self.0 >> 5
    }

    /// The detail within the class: 0 to 31.
    pub fn detail(self) -> u8
        ensures { result ≡ self.0 % 32 }
    {
        self.0 & 0x1f
    }

    /// Whether this is 0.00, the code of an Empty message.
    pub fn is_empty(self) -> bool
        ensures { IsTrue result ↔ (self.0 ≡ 0) }
    {
        self.0 == 0
    }

    /// Whether this is a method: class 0 with a detail above 0.
    pub fn is_request(self) -> bool
        ensures { result ≡ is_request self }
    {
        self.class() == 0 && self.0 != 0
    }

    /// Whether this is a response code: class 2, 3, 4 or 5.
    pub fn is_response(self) -> bool
        ensures { result ≡ is_response self }
    {
        2 <= self.class() && self.class() <= 5
    }
}
