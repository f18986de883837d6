ghost use Rattle.std.specs.Prelude.{◌≡◌};
ghost use Rattle.messages.specs.Services.{service_number, service_of, service_meant};

/// The bearer service that a request asks for.
#[derive(Clone, Copy, Debug, PartialEq, Eq)]
pub enum Service {
    NotGiven = 0,
    /// 3.1 kHz audio
    Audio = 1,
    Speech = 2,
    /// 64 kbit/s
    Digital = 3,
}

impl From<Service> for u8 {
    ghost from_gives = { λ service number. number ≡ service_number service };

    fn from(service: Service) -> u8 {
        service as u8
    }
}

impl From<u8> for Service {
    ghost from_gives = { λ number service. service ≡ service_of number };

    // A number above 3 gives no service.
    fn from(number: u8) -> Service {
        match number {
            1 => Service::Audio,
            2 => Service::Speech,
            3 => Service::Digital,
            _ => Service::NotGiven,
        }
    }
}

impl Service {
    /// The service meant: one that is not given is taken as 3.1 kHz audio.
    pub fn meant(self) -> Service
        ensures { result ≡ service_meant self }
    {
        match self {
            Service::NotGiven => Service::Audio,
            given => given,
        }
    }
}
