//! Worked exchanges, computed on the definitions. Each is a function that does nothing, whose contract is the exchange.

ghost use Rattle.std.specs.Prelude.{◌≡◌, ◌++◌, codes, None};
ghost use Rattle.http_pages.specs.Worked.{IsAnswered, date, exchange};

/// GET and HEAD of a page (RFC 9110, 9.3.1 and 9.3.2): the same fields, and no content behind those to HEAD.
pub fn pages_are_told()
    ensures get { IsAnswered (codes "GET / HTTP/1.1\r\nHost: a\r\n\r\n")
        (codes "HTTP/1.1 200 OK\r\n" ++ (date ++ codes "ETag: \"i1\"\r\nContent-Type: text/html\r\nContent-Length: 8\r\n\r\n<p>Hello")) }
    ensures head { IsAnswered (codes "HEAD / HTTP/1.1\r\nHost: a\r\n\r\n")
        (codes "HTTP/1.1 200 OK\r\n" ++ (date ++ codes "ETag: \"i1\"\r\nContent-Type: text/html\r\nContent-Length: 8\r\n\r\n")) }
    ensures escaped { IsAnswered (codes "GET http://a/my%20docs/?x HTTP/1.1\r\nHost: a\r\nConnection: close\r\n\r\n")
        (codes "HTTP/1.1 200 OK\r\n" ++ (date ++ codes "ETag: \"d1\"\r\nContent-Type: text/plain\r\nContent-Length: 4\r\nConnection: close\r\n\r\ndocs")) }
{}

/// No whole head, none of a page, and what is refused: a folder without its slash (RFC 9110, 15.4.2), a tag that is had (13.1.2), a
/// method that pages haven't (15.5.6), no Host (RFC 9112, 3.2).
pub fn others_are_told()
    ensures waits { exchange (codes "GET / HTTP/1.1\r\nHost: a\r\n") ≡ None }
    ensures nowhere { IsAnswered (codes "GET /../x HTTP/1.0\r\n\r\n")
        (codes "HTTP/1.1 404 Not Found\r\n" ++ (date ++ codes "Content-Type: text/plain\r\nContent-Length: 15\r\nConnection: close\r\n\r\n404 Not Found\r\n")) }
    ensures folder { IsAnswered (codes "GET /my%20docs HTTP/1.1\r\nHost: a\r\n\r\n")
        (codes "HTTP/1.1 301 Moved Permanently\r\n" ++ (date ++ codes "Location: /my%20docs/\r\nContent-Type: text/plain\r\nContent-Length: 23\r\n\r\n301 Moved Permanently\r\n")) }
    ensures had { IsAnswered (codes "GET / HTTP/1.1\r\nHost: a\r\nIf-None-Match: \"x\", W/\"i1\"\r\n\r\n")
        (codes "HTTP/1.1 304 Not Modified\r\n" ++ (date ++ codes "ETag: \"i1\"\r\n\r\n")) }
    ensures method { IsAnswered (codes "DELETE / HTTP/1.1\r\nHost: a\r\n\r\n")
        (codes "HTTP/1.1 405 Method Not Allowed\r\n" ++ (date ++ codes "Allow: GET, HEAD\r\nContent-Type: text/plain\r\nContent-Length: 24\r\n\r\n405 Method Not Allowed\r\n")) }
    ensures no_host { IsAnswered (codes "GET / HTTP/1.1\r\n\r\n")
        (codes "HTTP/1.1 400 Bad Request\r\n" ++ (date ++ codes "Content-Type: text/plain\r\nContent-Length: 17\r\nConnection: close\r\n\r\n400 Bad Request\r\n")) }
{}

/// A part of a page (RFC 9110, 14.1.2, 15.3.7): up to its end, where the last byte that is wanted stands behind it; its last bytes; none, where
/// it has no such byte (15.5.17); and all of it, where the client's part is of another page (13.1.5).
pub fn parts_are_told()
    ensures part { IsAnswered (codes "GET / HTTP/1.1\r\nHost: a\r\nRange: bytes=3-100\r\n\r\n")
        (codes "HTTP/1.1 206 Partial Content\r\n" ++ (date ++ codes "ETag: \"i1\"\r\nContent-Range: bytes 3-7/8\r\nContent-Type: text/html\r\nContent-Length: 5\r\n\r\nHello")) }
    ensures end { IsAnswered (codes "GET / HTTP/1.1\r\nHost: a\r\nIf-Range: \"i1\"\r\nRange: bytes=-2\r\n\r\n")
        (codes "HTTP/1.1 206 Partial Content\r\n" ++ (date ++ codes "ETag: \"i1\"\r\nContent-Range: bytes 6-7/8\r\nContent-Type: text/html\r\nContent-Length: 2\r\n\r\nlo")) }
    ensures behind { IsAnswered (codes "GET / HTTP/1.1\r\nHost: a\r\nRange: bytes=8-\r\n\r\n")
        (codes "HTTP/1.1 416 Range Not Satisfiable\r\n" ++ (date ++ codes "Content-Range: bytes */8\r\nContent-Type: text/plain\r\nContent-Length: 27\r\n\r\n416 Range Not Satisfiable\r\n")) }
    ensures other { IsAnswered (codes "GET / HTTP/1.1\r\nHost: a\r\nIf-Range: \"i2\"\r\nRange: bytes=3-\r\n\r\n")
        (codes "HTTP/1.1 200 OK\r\n" ++ (date ++ codes "ETag: \"i1\"\r\nContent-Type: text/html\r\nContent-Length: 8\r\n\r\n<p>Hello")) }
{}
