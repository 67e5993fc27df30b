// Every refusal by its number; the rank of each; which of them end a search.
#![tactic(auto)]

ghost use Rattle.std.specs.Prelude.{◌≡◌};
ghost use Rattle.refusal.specs.Refusals.{rank_of, is_fatal};
ghost use Rattle.refusal.specs.Model.{worse_of};

use std::marker::Model;

// Why something is refused: a number, since callers may give any number of their own as a refusal. Clauses see the number.
#[derive(Clone, Copy, PartialEq, Eq)]
pub struct Refusal(u16);

impl Model for Refusal {
    ghost use Rattle.std.specs.Prelude.{ℕ};

    ghost Value = { ℕ };

    ghost view = { λ r. r.0 };

    ghost inverse = { λ n. record { 0 = n } };
}

impl From<u16> for Refusal {
    ghost from_gives = { λ n r. r ≡ n };

    fn from(number: u16) -> Refusal {
        Refusal(number)
    }
}

impl From<Refusal> for u16 {
    ghost from_gives = { λ r n. n ≡ r };

    fn from(refusal: Refusal) -> u16 {
        refusal.0
    }
}

impl Refusal {
    pub const CERT_NOT_VALID_YET: Refusal = Refusal(1);

    pub const CERT_EXPIRED: Refusal = Refusal(2);

    pub const CERT_NOT_VALID_FOR_NAME: Refusal = Refusal(3);

    pub const CERT_DISTRUSTED: Refusal = Refusal(4);

    pub const CERT_REVOKED: Refusal = Refusal(5);

    pub const UNKNOWN_REVOCATION_STATUS: Refusal = Refusal(6);

    pub const CRL_EXPIRED: Refusal = Refusal(7);

    pub const INVALID_SIGNATURE_FOR_PUBLIC_KEY: Refusal = Refusal(8);

    pub const INVALID_CRL_SIGNATURE_FOR_PUBLIC_KEY: Refusal = Refusal(9);

    pub const SIGNATURE_ALGORITHM_MISMATCH: Refusal = Refusal(10);

    pub const EMPTY_EKU_EXTENSION: Refusal = Refusal(11);

    pub const REQUIRED_EKU_NOT_FOUND: Refusal = Refusal(12);

    pub const NAME_CONSTRAINT_VIOLATION: Refusal = Refusal(13);

    pub const PATH_LEN_CONSTRAINT_VIOLATED: Refusal = Refusal(14);

    pub const CA_USED_AS_END_ENTITY: Refusal = Refusal(15);

    pub const END_ENTITY_USED_AS_CA: Refusal = Refusal(16);

    pub const ISSUER_NOT_CRL_SIGNER: Refusal = Refusal(17);

    pub const INVALID_CERT_VALIDITY: Refusal = Refusal(18);

    pub const INVALID_NETWORK_MASK_CONSTRAINT: Refusal = Refusal(19);

    pub const INVALID_SERIAL_NUMBER: Refusal = Refusal(20);

    pub const INVALID_CRL_NUMBER: Refusal = Refusal(21);

    pub const UNSUPPORTED_SIGNATURE_ALGORITHM_FOR_PUBLIC_KEY: Refusal = Refusal(22);

    pub const UNSUPPORTED_CRL_SIGNATURE_ALGORITHM_FOR_PUBLIC_KEY: Refusal = Refusal(23);

    pub const UNSUPPORTED_SIGNATURE_ALGORITHM: Refusal = Refusal(24);

    pub const UNSUPPORTED_CRL_SIGNATURE_ALGORITHM: Refusal = Refusal(25);

    pub const UNSUPPORTED_CRITICAL_EXTENSION: Refusal = Refusal(26);

    pub const UNSUPPORTED_CERT_VERSION: Refusal = Refusal(27);

    pub const UNSUPPORTED_CRL_VERSION: Refusal = Refusal(28);

    pub const UNSUPPORTED_DELTA_CRL: Refusal = Refusal(29);

    pub const UNSUPPORTED_INDIRECT_CRL: Refusal = Refusal(30);

    pub const UNSUPPORTED_NAME_TYPE: Refusal = Refusal(31);

    pub const UNSUPPORTED_REVOCATION_REASON: Refusal = Refusal(32);

    pub const UNSUPPORTED_REVOCATION_REASONS_PARTITIONING: Refusal = Refusal(33);

    pub const UNSUPPORTED_CRL_ISSUING_DISTRIBUTION_POINT: Refusal = Refusal(34);

    pub const MAXIMUM_PATH_DEPTH_EXCEEDED: Refusal = Refusal(35);

    pub const MALFORMED_DNS_IDENTIFIER: Refusal = Refusal(36);

    pub const MALFORMED_NAME_CONSTRAINT: Refusal = Refusal(37);

    pub const MALFORMED_EXTENSIONS: Refusal = Refusal(38);

    pub const TRAILING_BIT_STRING: Refusal = Refusal(39);

    pub const TRAILING_BOOL: Refusal = Refusal(40);

    pub const TRAILING_CERTIFICATE: Refusal = Refusal(41);

    pub const TRAILING_CERTIFICATE_EXTENSIONS: Refusal = Refusal(42);

    pub const TRAILING_CERTIFICATE_TBS_CERTIFICATE: Refusal = Refusal(43);

    pub const TRAILING_CERT_REVOCATION_LIST: Refusal = Refusal(44);

    pub const TRAILING_CERT_REVOCATION_LIST_EXTENSION: Refusal = Refusal(45);

    pub const TRAILING_CRL_DISTRIBUTION_POINT: Refusal = Refusal(46);

    pub const TRAILING_COMMON_NAME_INNER: Refusal = Refusal(47);

    pub const TRAILING_COMMON_NAME_OUTER: Refusal = Refusal(48);

    pub const TRAILING_DISTRIBUTION_POINT_NAME: Refusal = Refusal(49);

    pub const TRAILING_EXTENSION: Refusal = Refusal(50);

    pub const TRAILING_GENERAL_NAME: Refusal = Refusal(51);

    pub const TRAILING_REVOCATION_REASON: Refusal = Refusal(52);

    pub const TRAILING_SIGNATURE: Refusal = Refusal(53);

    pub const TRAILING_SIGNATURE_ALGORITHM: Refusal = Refusal(54);

    pub const TRAILING_SIGNED_DATA: Refusal = Refusal(55);

    pub const TRAILING_SUBJECT_PUBLIC_KEY_INFO: Refusal = Refusal(56);

    pub const TRAILING_TIME: Refusal = Refusal(57);

    pub const TRAILING_TRUST_ANCHOR_V1: Refusal = Refusal(58);

    pub const TRAILING_TRUST_ANCHOR_V1_TBS_CERTIFICATE: Refusal = Refusal(59);

    pub const TRAILING_U8: Refusal = Refusal(60);

    pub const TRAILING_REVOKED_CERTIFICATE: Refusal = Refusal(61);

    pub const TRAILING_REVOKED_CERTIFICATE_EXTENSION: Refusal = Refusal(62);

    pub const TRAILING_REVOKED_CERT_ENTRY: Refusal = Refusal(63);

    pub const TRAILING_ISSUING_DISTRIBUTION_POINT: Refusal = Refusal(64);

    pub const EXTENSION_VALUE_INVALID: Refusal = Refusal(65);

    pub const BAD_DER_TIME: Refusal = Refusal(66);

    pub const BAD_DER: Refusal = Refusal(67);

    pub const UNKNOWN_ISSUER: Refusal = Refusal(68);

    pub const MAXIMUM_SIGNATURE_CHECKS_EXCEEDED: Refusal = Refusal(69);

    pub const MAXIMUM_PATH_BUILD_CALLS_EXCEEDED: Refusal = Refusal(70);

    pub const MAXIMUM_NAME_CONSTRAINT_COMPARISONS_EXCEEDED: Refusal = Refusal(71);

    // The number, as C sees it.
    pub fn number(self) -> u16
        ensures { result ≡ self }
    {
        self.0
    }

    // The rank; 0 for a number that is no refusal.
    pub fn rank(self) -> u16
        ensures { result ≡ rank_of self }
    {
        RANKS.get(self.number() as usize).copied().unwrap_or(0)
    }

    // Whether it ends the search at once.
    #[tactic(auto, unfolding(crate::specs::Refusals::is_fatal))]
    pub fn is_fatal(self) -> bool
        ensures { result ≡ is_fatal self }
    {
        matches!(
            self,
            Refusal::MAXIMUM_SIGNATURE_CHECKS_EXCEEDED
                | Refusal::MAXIMUM_PATH_BUILD_CALLS_EXCEEDED
                | Refusal::MAXIMUM_NAME_CONSTRAINT_COMPARISONS_EXCEEDED
        )
    }

    // The one to keep of two met in this order: that of higher rank, the earlier where ranks are equal.
    pub fn worse(self, later: Refusal) -> Refusal
        ensures { result ≡ worse_of self later }
    {
        if self.rank() < later.rank() {
            later
        } else {
            self
        }
    }
}

// The rank of each, by its number.
const RANKS: [u16; 72] = [
    0, // none
    290, // CERT_NOT_VALID_YET
    290, // CERT_EXPIRED
    280, // CERT_NOT_VALID_FOR_NAME
    270, // CERT_DISTRUSTED
    270, // CERT_REVOKED
    270, // UNKNOWN_REVOCATION_STATUS
    270, // CRL_EXPIRED
    260, // INVALID_SIGNATURE_FOR_PUBLIC_KEY
    260, // INVALID_CRL_SIGNATURE_FOR_PUBLIC_KEY
    250, // SIGNATURE_ALGORITHM_MISMATCH
    245, // EMPTY_EKU_EXTENSION
    240, // REQUIRED_EKU_NOT_FOUND
    230, // NAME_CONSTRAINT_VIOLATION
    220, // PATH_LEN_CONSTRAINT_VIOLATED
    210, // CA_USED_AS_END_ENTITY
    210, // END_ENTITY_USED_AS_CA
    200, // ISSUER_NOT_CRL_SIGNER
    190, // INVALID_CERT_VALIDITY
    180, // INVALID_NETWORK_MASK_CONSTRAINT
    170, // INVALID_SERIAL_NUMBER
    160, // INVALID_CRL_NUMBER
    150, // UNSUPPORTED_SIGNATURE_ALGORITHM_FOR_PUBLIC_KEY
    150, // UNSUPPORTED_CRL_SIGNATURE_ALGORITHM_FOR_PUBLIC_KEY
    140, // UNSUPPORTED_SIGNATURE_ALGORITHM
    140, // UNSUPPORTED_CRL_SIGNATURE_ALGORITHM
    130, // UNSUPPORTED_CRITICAL_EXTENSION
    130, // UNSUPPORTED_CERT_VERSION
    120, // UNSUPPORTED_CRL_VERSION
    110, // UNSUPPORTED_DELTA_CRL
    100, // UNSUPPORTED_INDIRECT_CRL
    95, // UNSUPPORTED_NAME_TYPE
    90, // UNSUPPORTED_REVOCATION_REASON
    80, // UNSUPPORTED_REVOCATION_REASONS_PARTITIONING
    70, // UNSUPPORTED_CRL_ISSUING_DISTRIBUTION_POINT
    61, // MAXIMUM_PATH_DEPTH_EXCEEDED
    60, // MALFORMED_DNS_IDENTIFIER
    50, // MALFORMED_NAME_CONSTRAINT
    40, // MALFORMED_EXTENSIONS
    40, // TRAILING_BIT_STRING
    40, // TRAILING_BOOL
    40, // TRAILING_CERTIFICATE
    40, // TRAILING_CERTIFICATE_EXTENSIONS
    40, // TRAILING_CERTIFICATE_TBS_CERTIFICATE
    40, // TRAILING_CERT_REVOCATION_LIST
    40, // TRAILING_CERT_REVOCATION_LIST_EXTENSION
    40, // TRAILING_CRL_DISTRIBUTION_POINT
    40, // TRAILING_COMMON_NAME_INNER
    40, // TRAILING_COMMON_NAME_OUTER
    40, // TRAILING_DISTRIBUTION_POINT_NAME
    40, // TRAILING_EXTENSION
    40, // TRAILING_GENERAL_NAME
    40, // TRAILING_REVOCATION_REASON
    40, // TRAILING_SIGNATURE
    40, // TRAILING_SIGNATURE_ALGORITHM
    40, // TRAILING_SIGNED_DATA
    40, // TRAILING_SUBJECT_PUBLIC_KEY_INFO
    40, // TRAILING_TIME
    40, // TRAILING_TRUST_ANCHOR_V1
    40, // TRAILING_TRUST_ANCHOR_V1_TBS_CERTIFICATE
    40, // TRAILING_U8
    40, // TRAILING_REVOKED_CERTIFICATE
    40, // TRAILING_REVOKED_CERTIFICATE_EXTENSION
    40, // TRAILING_REVOKED_CERT_ENTRY
    40, // TRAILING_ISSUING_DISTRIBUTION_POINT
    30, // EXTENSION_VALUE_INVALID
    20, // BAD_DER_TIME
    10, // BAD_DER
    0, // UNKNOWN_ISSUER
    0, // MAXIMUM_SIGNATURE_CHECKS_EXCEEDED
    0, // MAXIMUM_PATH_BUILD_CALLS_EXCEEDED
    0, // MAXIMUM_NAME_CONSTRAINT_COMPARISONS_EXCEEDED
];
