/// The sixteen calls: those of the originating side, those of the destination side, and those between.
#[derive(Clone, Copy, Debug, PartialEq, Eq)]
pub enum Call {
    /// The user asks to be called back once the destination is free.
    Activate {
        user: u8,
        destination: u8,
        service: u8,
    },
    /// The user gives the request up.
    Withdraw {
        user: u8,
        tn: u32,
    },
    /// The user answers the recall.
    AnswerRecall {
        user: u8,
        tn: u32,
    },
    ALineBusy {
        user: u8,
    },
    ALineFree {
        user: u8,
    },
    /// One tick of every running timer of the originating side.
    ATick,
    /// One timer of the originating side that is over.
    AExpiry,
    BLineBusy {
        destination: u8,
    },
    BLineFree {
        destination: u8,
    },
    SetForwarding {
        destination: u8,
        forwarding: u8,
    },
    /// One tick of every running timer of the destination side.
    BTick,
    /// One timer of the destination side that is over.
    BExpiry,
    /// The oldest message toward A arrives there.
    DeliverToA,
    /// The oldest message toward B arrives there.
    DeliverToB,
    /// The oldest message toward B goes back to A, its sender.
    ReturnToA,
    /// The oldest message toward A goes back to B, its sender.
    ReturnToB,
}
